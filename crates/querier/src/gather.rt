//! The one answer to a query that several gateways make. Gateways with the same blocks answer alike, so answers that
//! repeat the one before are found first, and only the others are merged.

ghost use Rattle.std.specs.Prelude.{◌≡◌, [], ◌∷◌, ◌++◌, IfOk, OnOk, OnErr};
ghost use Rattle.label_sets.specs.Triples.{triples_of};
ghost use Rattle.vertical_merge.specs.Merged.{IsMerge, IsDeduplication};
ghost use Rattle.querier.specs.Gathered.{answer, gathered_samples, IsGathered};

use crate::repeats::without_repeats;
use crate::{Answer, AnswerList, CompareWay};
use base::{NoMemory, TryCopy};
use block_meta::union_of_sources;
use label_sets::SeriesList;
use std::alloc::Global;
use std::marker::Model;
use ulid_core::UlidList;
use vertical_merge::Merger;

/// The answers of gateways to one query, which make one answer. It is seen as the answers that were added, in that order.
#[derive(Drop)]
pub struct Gather {
    alloc: Global,
    added: AnswerList,
}

impl Model for Gather {
    ghost use Rattle.std.specs.Prelude.{List};
    ghost use Rattle.querier.specs.declared.answer.Answer.{Answer};

    ghost Value = { List Answer };

    ghost view = { λ g. g.added };
}

impl Gather {
    /// No gateway has answered yet. It takes no memory.
    pub fn new(alloc: Global) -> Self
        ensures { result ≡ [] }
    {
        Gather {
            alloc,
            added: AnswerList::new(alloc),
        }
    }

    /// Adds a copy of a gateway's answer. The gateways come in their order.
    pub fn add(&mut self, series: &SeriesList, sources: &UlidList) -> Result<(), NoMemory>
        ensures ok { OnOk result (self.new ≡ self.old ++ answer series.now sources.now ∷ []) }
        ensures err { OnErr result (self.new ≡ self.old) }
    {
        let series = series.copy()?;
        let sources = sources.copy()?;
        self.take(Answer { series, sources })
    }

    /// Adds a gateway's answer.
    pub fn take(&mut self, answer: Answer) -> Result<(), NoMemory>
        ensures ok { OnOk result (self.new ≡ self.old ++ answer ∷ []) }
        ensures err { OnErr result (self.new ≡ self.old) }
    {
        self.added.push(answer)
    }

    /// The answer of all together: at each label set and time the pattern of the first gateway that has one, and the sources of
    /// them all. The answers are compared with the first one in this way, and then merged.
    pub fn finish<W: CompareWay>(self, way: &W) -> Result<Answer, NoMemory>
        requires { W.can_compare way.now }
        ensures merged { IfOk result (IsGathered self) }
        ensures deduplicated { IfOk result
            (λ made. IsDeduplication (triples_of made.series) (gathered_samples self)) }
    {
        let Gather { alloc, added } = self;
        let sources = union_of_sources(alloc, added.members())?;
        let series = merged_answers(alloc, added, way)?;
        Ok(Answer { series, sources })
    }
}

/// The series of all answers, merged.
fn merged_answers<W: CompareWay>(
    alloc: Global,
    answers: AnswerList,
    way: &W,
) -> Result<SeriesList, NoMemory>
    requires { W.can_compare way.now }
    ensures merged { IfOk result (IsMerge (gathered_samples answers)) }
    ensures deduplicated { IfOk result
        (λ made. IsDeduplication (triples_of made) (gathered_samples answers)) }
{
    let told = without_repeats(alloc, answers.into_vec(), way)?;
    merged_all(alloc, told)
}

/// The series of these answers, merged.
fn merged_all(alloc: Global, told: Vec<Answer>) -> Result<SeriesList, NoMemory>
    ensures { IfOk result (IsMerge (gathered_samples told.items)) }
{
    let mut merger = Merger::new(alloc);
    for answer in told {
        merger.take_all(answer.series)?;
    }
    merger.finish()
}

//! A task's outcome, from the parts of those who did it.

ghost use Rattle.std.specs.Prelude.{◌≡◌, ◌<◌, ◌^◌, [], ◌∷◌, ◌++◌, List, Some, IfOk, MatchResult, OnOk, length};
ghost use Rattle.script_workers.specs.declared.work.Work.{Work};
ghost use Rattle.script_running.specs.Given.{HasGiven};
ghost use Rattle.script_running.specs.Outcomes.{AreAllParts, IsOutcomeOf, IsQueryOutcome, IsWhole, why_none};
ghost use Rattle.script_running.specs.declared.came.Came.TheVariants as parts;
ghost use Rattle.script_running.specs.declared.outcome.QueryPart.{QueryPart};

use crate::{Came, NoAnswer, Outcome, Part, QueryOutcome, QueryPart};
use base::{NoMemory, TryCopy};
use querier::{CompareWay, Gather, Names, NamesList};
use std::alloc::Global;

/// How a task came out, by the parts of all who did it, in their order: an upload, a compaction and a cleaning by its worker's,
/// a sync by its gateway's, and a query by those of all gateways, whose answers are compared in this way.
#[tactic(auto, using(crate::proofs::GivenParts::query_whole))]
pub fn outcome_of<W: CompareWay>(
    alloc: Global,
    parts: Vec<Part>,
    way: &W,
) -> Result<Outcome, NoMemory>
    requires way { W.can_compare way.now }
    ensures whole { (work : Work) → AreAllParts work parts.items → length parts.items < 2 ^ 32
        → IfOk result (IsOutcomeOf work parts.items) }
{
    let mut given = Given::new(alloc);
    let mut gateway = 0u32;
    for part in parts {
        match query_part(part) {
            Ok(own) => given.add(gateway, own)?,
            Err(whole) => return Ok(whole),
        }
        gateway = gateway.saturating_add(1);
    }
    Ok(Came::Query(given.finish(way)?))
}

/// A gateway's part of a query; or what another task came to, of which the part is the whole.
fn query_part(part: Part) -> Result<QueryPart, Outcome>
    ensures { MatchResult result (λ own. part ≡ parts.Query own) (IsWhole part) }
{
    match part {
        Came::Upload(end) => Err(Came::Upload(end)),
        Came::Unshipped(cause) => Err(Came::Unshipped(cause)),
        Came::Sync(end) => Err(Came::Sync(end)),
        Came::Compact(end) => Err(Came::Compact(end)),
        Came::Clean(end) => Err(Came::Clean(end)),
        Came::Query(own) => Ok(own),
    }
}

/// What the first gateways gave to a query.
#[derive(Drop)]
pub(crate) struct Given {
    pub answers: Gather,
    pub names: NamesList,
    /// The first of them that gave no answer, and why.
    pub none: Option<(u32, NoAnswer)>,
}

impl Given {
    fn new(alloc: Global) -> Given
        ensures { HasGiven [] result }
    {
        Given {
            answers: Gather::new(alloc),
            names: NamesList::new(alloc),
            none: None,
        }
    }

    /// Adds what the next gateway gave.
    #[tactic(auto, using(crate::proofs::GivenParts::unasked_more))]
    fn add(&mut self, gateway: u32, part: QueryPart) -> Result<(), NoMemory>
        ensures { (parts : List QueryPart) → length parts ≡ gateway → HasGiven parts self.old
            → OnOk result (HasGiven (parts ++ part ∷ []) self.new) }
    {
        match part {
            QueryPart::NotAsked => Ok(()),
            QueryPart::NoView => {
                self.note_none(gateway, NoAnswer::NoView);
                Ok(())
            }
            QueryPart::Answer(answer, _) => {
                let sources = answer.sources.copy()?;
                self.names.push(Names { gateway, sources })?;
                self.answers.take(answer)
            }
            QueryPart::NoAnswer(why, _) => {
                self.note_none(gateway, why);
                Ok(())
            }
        }
    }

    /// A gateway gave no answer: it is noted, if it is the first.
    fn note_none(&mut self, gateway: u32, why: NoAnswer)
        ensures { (parts : List QueryPart) (part : QueryPart) → why_none part ≡ Some why
            → length parts ≡ gateway → HasGiven parts self.old
            → HasGiven (parts ++ part ∷ []) self.new }
    {
        if self.none.is_none() {
            self.none = Some((gateway, why));
        }
    }

    /// How the query comes out.
    #[tactic(auto, using(crate::proofs::GivenParts::none_first, crate::proofs::GivenParts::all_answered))]
    fn finish<W: CompareWay>(self, way: &W) -> Result<QueryOutcome, NoMemory>
        requires { W.can_compare way.now }
        ensures { (parts : List QueryPart) → HasGiven parts self
            → IfOk result (IsQueryOutcome parts) }
    {
        let Given {
            answers,
            names,
            none,
        } = self;
        match none {
            Some((gateway, why)) => Ok(QueryOutcome::NoAnswer(gateway, why)),
            None => Ok(QueryOutcome::Answer(answers.finish(way)?, names)),
        }
    }
}

//! What answers a query, or a gateway's part of one: samples, the uploads that they are of, and who names which.

ghost use Rattle.std.specs.Prelude.{◌≡◌, []};
ghost use Rattle.querier.specs.Gathered.{IsComparedWith};

use crate::repeats::are_same;
use base::{List, NoMemory, TryCopy};
use block_meta::HasSources;
use label_sets::SeriesList;
use std::alloc::Global;
use ulid_core::{Ulid, UlidList};

/// Samples that answer a query, or a gateway's part of it, and the uploads that they are of.
#[derive(Drop)]
pub struct Answer {
    pub series: SeriesList,
    pub sources: UlidList,
}

impl TryCopy for Answer {
    fn copy(&self) -> Result<Self, NoMemory> {
        Ok(Answer {
            series: self.series.copy()?,
            sources: self.sources.copy()?,
        })
    }
}

impl Answer {
    /// An answer that has nothing. It takes no memory.
    pub(crate) fn empty(alloc: Global) -> Answer
        ensures { result.series ≡ [] }
    {
        Answer {
            series: SeriesList::new(alloc),
            sources: UlidList::new(alloc),
        }
    }

    /// Lets go what the answer has, its sources too, if its series are those of the first one.
    pub fn empty_repeat(&mut self, alloc: Global, first: &Answer)
        ensures { IsComparedWith first.now self.old self.new }
    {
        let own = self.series.members();
        if are_same(first.series.members(), own) {
            *self = Answer::empty(alloc);
        }
    }
}

impl HasSources for Answer {
    ghost sources = { λ answer. answer.sources };

    fn sources(&self) -> &[Ulid] {
        self.sources.members()
    }
}

/// A list of answers.
pub type AnswerList = List<Answer>;

/// A gateway that was asked, and the uploads that it names.
#[derive(Drop)]
pub struct Names {
    /// The gateway's place.
    pub gateway: u32,
    pub sources: UlidList,
}

/// What gateways name, in their order.
pub type NamesList = List<Names>;

//! The delays by which programs over one bucket keep out of each other's way without talking to one another: how long a
//! block is waited for, and how old a mark has to be before the block is passed over and before it is deleted.

ghost use Rattle.std.specs.Prelude.{◌≡◌};

use crate::{HOUR, MINUTE, Span};
use base::{NoMemory, TryCopy};
use label_sets::TextList;
use std::alloc::Global;

/// The delays, limits, replica labels and retention that a run goes by.
#[derive(Drop)]
pub struct Rules {
    /// How old a block has to be before it is looked at.
    pub consistency: Span,
    /// How old a deletion mark has to be before the marked block is passed over.
    pub ignore: Span,
    /// How old a deletion mark has to be before the marked block is deleted.
    pub delete: Span,
    /// How old a block without a meta has to be before it is deleted.
    pub partial: Span,
    /// How long after its ULID's time a block may be uploaded.
    pub upload: Span,
    /// How far the clock moves at each operation.
    pub tick: Span,
    /// How many names one page asks for, at least 1.
    pub page_limit: u32,
    /// The names of the labels that tell replicas of one series apart.
    pub replicas: TextList,
    /// How long after its end a block is kept; none keeps blocks for ever.
    pub retention: Option<Span>,
}

impl TryCopy for Rules {
    fn copy(&self) -> Result<Self, NoMemory> {
        Ok(Rules {
            replicas: self.replicas.copy()?,
            consistency: self.consistency,
            ignore: self.ignore,
            delete: self.delete,
            partial: self.partial,
            upload: self.upload,
            tick: self.tick,
            page_limit: self.page_limit,
            retention: self.retention,
        })
    }
}

impl Rules {
    ghost use Rattle.moment_core.specs.StandardRules.{standard_rules};

    /// The rules of a script that sets none.
    pub fn standard(alloc: Global) -> Rules
        ensures { result ≡ standard_rules }
    {
        Rules {
            consistency: Span { ms: 30 * MINUTE },
            ignore: Span { ms: 24 * HOUR },
            delete: Span { ms: 48 * HOUR },
            partial: Span { ms: 48 * HOUR },
            upload: Span { ms: 30 * MINUTE },
            tick: Span { ms: 1 },
            page_limit: 1_000,
            replicas: TextList::new(alloc),
            retention: None,
        }
    }
}

//! What a line of a phase asks a worker to do, in the words of a script.

use base::{NoMemory, TryCopy};
use ulid_core::Ulid;

/// What one line of a phase asks for.
#[derive(Debug, PartialEq, Eq, Drop)]
pub enum Work {
    /// Ships a declared block, and may stop after so many operations.
    Upload(Ulid, Option<u32>),
    /// A sync of the gateway at this place.
    Sync(u32),
    /// One round of compactions, which may stop after so many operations.
    Compact(Option<u32>),
    /// One cleaning, which may stop after so many operations.
    Clean(Option<u32>),
    /// Asks all gateways for what the selector at this place matches, from `low` to `high`, both included.
    Query { low: i64, high: i64, selector: u32 },
}

/// What a task asks all gateways: for the times from `low` to `high`, both included, what the selector at this place matches.
#[derive(Clone, Copy, Debug, PartialEq, Eq)]
pub struct Asking {
    pub low: i64,
    pub high: i64,
    pub selector: u32,
}

impl Work {
    ghost use Rattle.std.specs.Prelude.{◌≡◌};
    ghost use Rattle.script_workers.specs.Works.{asking_of, is_compaction};

    /// What it asks all gateways, if it asks them.
    pub fn asking(&self) -> Option<Asking>
        ensures { result ≡ asking_of self.now }
    {
        match self {
            Work::Query {
                low,
                high,
                selector,
            } => Some(Asking {
                low: *low,
                high: *high,
                selector: *selector,
            }),
            Work::Upload(..) | Work::Sync(_) | Work::Compact(_) | Work::Clean(_) => None,
        }
    }

    /// Whether the task is a compaction, of which a phase has at most one.
    pub fn is_compaction(&self) -> bool
        ensures { result ≡ is_compaction self.now }
    {
        matches!(self, Work::Compact(_))
    }
}

impl TryCopy for Work {
    fn copy(&self) -> Result<Self, NoMemory> {
        Ok(match self {
            Work::Upload(ulid, stop) => Work::Upload(*ulid, *stop),
            Work::Sync(gateway) => Work::Sync(*gateway),
            Work::Compact(stop) => Work::Compact(*stop),
            Work::Clean(stop) => Work::Clean(*stop),
            Work::Query {
                low,
                high,
                selector,
            } => Work::Query {
                low: *low,
                high: *high,
                selector: *selector,
            },
        })
    }
}

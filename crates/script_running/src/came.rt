//! What a task came to.

ghost use Rattle.std.specs.Prelude.{◌≡◌};

use crate::{QueryOutcome, QueryPart, SyncOutcome};
use cleaner::CleanEnd;
use compactor::CompactEnd;
use shipper::UploadEnd;

/// What a task came to, where `Q` is what is said of a query. Numbers of entries count the journal's from 1.
#[derive(Drop)]
pub enum Came<Q> {
    Upload(Stop<UploadEnd>),
    /// The block of an upload is not shipped, for the cause of this number.
    Unshipped(u32),
    Sync(SyncOutcome),
    Compact(Stop<CompactEnd>),
    Clean(Stop<CleanEnd>),
    Query(Q),
}

/// What came first of an activity: its end, or the stop for which the script asks.
#[derive(Drop)]
pub enum Stop<E> {
    Ended(E),
    /// It was stopped after so many operations.
    At(u32),
}

/// What a worker's part of a task came to: the whole of an upload, a sync, a compaction or a cleaning, and of a query
/// its gateway's part.
pub type Part = Came<QueryPart>;

/// How one activity of the script ended, as its report line tells it.
pub type Outcome = Came<QueryOutcome>;

/// Why a worker broke off.
#[derive(Clone, Copy, Debug, PartialEq, Eq)]
pub enum Broken {
    /// An operation was answered that the journal is full.
    Full,
    NoMemory,
}

impl Came<QueryOutcome> {
    ghost use Rattle.script_running.specs.Outcomes.{is_as_asked};

    /// Whether the activity ended as asked.
    pub fn is_as_asked(&self) -> bool
        ensures { result ≡ is_as_asked self.now }
    {
        match self {
            Came::Upload(Stop::Ended(UploadEnd::Fault(_))) | Came::Unshipped(_) => false,
            Came::Upload(_) => true,
            Came::Sync(SyncOutcome::Blocks(_)) => true,
            Came::Sync(_) => false,
            Came::Compact(Stop::Ended(CompactEnd::Done { .. }) | Stop::At(_)) => true,
            Came::Compact(_) => false,
            Came::Clean(Stop::Ended(CleanEnd::Done { .. }) | Stop::At(_)) => true,
            Came::Clean(_) => false,
            Came::Query(QueryOutcome::Answer(..)) => true,
            Came::Query(QueryOutcome::NoAnswer(..)) => false,
        }
    }
}

//! The tasks of a script, done by its workers through hands of whatever kind.
#![tactic(auto)]

mod activity;
mod beside;
mod came;
mod comparing;
mod declared;
mod gathering;
mod means;
mod outcome;
mod plan;
mod progress;
mod query_parts;
mod report;
mod shelf;
mod sight;
mod stopping;
mod task;
mod unshipped;
mod upkeep;
mod worker;

pub use beside::{Lent, RunEnd, run_beside};
pub use came::{Broken, Came, Outcome, Part, Stop};
pub use cleaner;
pub use cleaner::CleanEnd;
pub use compactor;
pub use compactor::CompactEnd;
pub use gathering::{Staffed, gather, jobs_of};
pub use means::{Means, selector_texts};
pub use outcome::{NoAnswer, QueryOutcome, QueryPart, SyncOutcome};
pub use progress::Progress;
pub use query_parts::outcome_of;
pub use report::Report;
pub use shelf::{ShelfBlock, ShelfBlockList, ShelfFound, cause_number};
pub use shipper;
pub use shipper::UploadEnd;
pub use sight::Sight;
pub use task::run_task;
pub use worker::{WorkerEnd, WorkerJob};

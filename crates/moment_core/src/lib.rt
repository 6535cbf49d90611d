//! Moments, spans of time, ranges of times, and the rules of a run.
#![tactic(auto)]

mod moment;
mod partition;
mod refusal;
mod rules;
mod span;

pub use moment::Moment;
pub use partition::{Partition, PartitionList};
pub use refusal::{BadSpan, MomentRefusal};
pub use rules::Rules;
pub use span::{HOUR, MINUTE, SECOND, Span};

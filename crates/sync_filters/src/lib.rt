//! The filters of a sync: which of the blocks that are found in a bucket are looked at.
#![tactic(auto)]

mod consistency;
mod coverage;
mod digest;
mod expiry;
mod found;
mod holders;
mod marks;
mod partition;

pub use consistency::consistent;
pub use coverage::{better, uncovered};
pub use expiry::is_expired;
pub use found::{Found, FoundList};
pub use marks::unmarked;
pub use partition::in_partition;

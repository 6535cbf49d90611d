//! The generated day: a script of two replicas' blocks of one day, with rounds of compaction, a cleaning and three queries.
#![tactic(auto)]

mod day;
mod laws;
mod lines;
mod samples;
mod summary;

pub use day::generated_script;
pub use laws::day_is_a_script;
pub use summary::{QueryCounts, Summary};

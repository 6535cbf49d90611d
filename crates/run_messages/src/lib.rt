//! What standard error is told of a run's failures: each line of the report that tells of one, in words, with the line of the
//! script, the object and the moment.
#![tactic(auto)]

mod actors;
mod breach;
mod dates;
mod finding;
mod of_calls;
mod pieces;
mod rule_conflicts;
mod script_finding;
mod script_lines;
mod sentences;
mod telling;
mod told;

pub use breach_finding::{Breach, BreachRule};
pub use finding::{Finding, finding_of};
pub use of_calls::messages;
pub use script_finding::ScriptFinding;
pub use told::{Told, ToldList, told_in};

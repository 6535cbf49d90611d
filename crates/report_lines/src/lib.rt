//! The lines of a report: what they say of each activity, of a check, and of the journal's breach. And what the activities of a run add up
//! to, and the summary of a run of the generated day.
#![tactic(auto)]

mod breach;
mod check_outcome;
mod lines;
mod lines_by;
mod phase_report;
mod report;
mod series_way;
mod summing;
mod sums;
mod tally;

pub use breach::put_breach_of;
pub use check_outcome::CheckOutcome;
pub use lines::Lines;
pub use lines_by::LinesBy;
pub use phase_report::PhaseReport;
pub use report::{make_room, put_activity, put_all_series, put_check};
pub use script_running;
pub use series_way::{InTurn, SeriesWay};
pub use sums::Sums;
pub use tally::Tally;

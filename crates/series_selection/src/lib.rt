//! The series that a selector takes from an index, by the rows of its postings table.
#![tactic(auto)]

mod keeping;
mod laws;
mod marking;
mod rows;
mod selection;

pub use laws::lists_share_no_number;
pub use selection::select_postings;

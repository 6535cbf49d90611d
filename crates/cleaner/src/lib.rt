//! Cleaning: the deletion of blocks whose deletion mark is old, and of partials, which are blocks without a mark and a meta.
#![tactic(auto)]

mod ages;
mod clean;
mod clean_rules;
mod laws;
mod objects;
mod running;
mod walk;

pub use clean::{Clean, CleanEnd};
pub use laws::cleanings_have_one_end;
pub use running::run_cleaning;

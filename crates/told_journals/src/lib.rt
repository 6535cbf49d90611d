//! Journals that are taken at their word: what their entries tell of each run, and the first entry that no run of the script makes.
#![tactic(auto)]

mod laws;

pub use laws::{finished_runs_are_told, first_refusals_are_one, told_journals_are_lawful};

//! A script's tasks are done one after another, in the order of their lines, and their report is made.
#![tactic(auto)]

mod gated_hand;
mod in_line;
mod phases;
mod seats;
mod tasks;

pub use in_line::do_in_line;

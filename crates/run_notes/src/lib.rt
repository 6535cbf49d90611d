//! A run over a world: the hand that does its tasks one after another, and the note of what its operations were answered.
#![tactic(auto)]

mod finished;
mod line_hand;
mod run_note;

pub use finished::Finished;
pub use line_hand::LineHand;
pub use run_note::RunNote;

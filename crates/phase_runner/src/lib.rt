//! The workers of one phase, beside each other in threads, over one shared world.
#![tactic(auto)]

mod dealing;
mod gate;
mod hand;
mod job;
mod phase;
mod shares;
mod work;

pub use gate::{Gate, Open, put_bytes, tell_moved};
pub use hand::TurnHand;
pub use job::Job;
pub use phase::{PhaseEnd, run_phase};
pub use shares::{for_each_beside, processors};

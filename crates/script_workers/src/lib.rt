//! Phases of tasks, and the workers that do them.
#![tactic(auto)]

mod hand;
mod hands;
mod phase;
mod task;
mod work;
mod worker;
mod workers;

pub use hand::Hand;
pub use hands::{add_hands, gateway_count};
pub use phase::{Phase, PhaseList};
pub use task::{Task, TaskList};
pub use work::{Asking, Work};
pub use worker::{Worker, WorkerList};
pub use workers::{phase_workers, seats_of};

//! A world behind a turn, which threads share: whoever has the turn does one operation, and every entry stands in one journal.
#![tactic(auto)]

mod closed;
mod pass;
mod plays;
mod shared;
mod turn;
mod view;

pub use closed::Closed;
pub use pass::Pass;
pub use plays::Turns;
pub use shared::Shared;
pub use view::View;

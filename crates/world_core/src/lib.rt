//! The world of one bucket: its journal of operations, and the machines and hands that work on it.
#![tactic(auto)]

mod act;
mod beginning;
mod bucket_calls;
mod driving;
mod entry;
mod hand;
mod journal;
mod keeping;
mod laws;
mod machine;
mod op;
mod page_names;
mod reply;
mod seen;
mod world;
mod world_hand;

pub use act::{Act, Acted};
pub use beginning::run_begun;
pub use driving::{Driven, drive, drive_over};
pub use entry::{Entry, EntryList};
pub use hand::Hand;
pub use journal::Journal;
pub use laws::{fronts_are_journals, last_landed_stands};
pub use machine::Machine;
pub use op::Op;
pub use page_names::{MOST_LISTED, add_ulids, ascends, is_short, last_name};
pub use reply::Reply;
pub use seen::Seen;
pub use world::{OpenRefusal, World};
pub use world_hand::WorldHand;

//! The first entry of a journal that breaks a rule, found in one walk along the journal: what stands in the bucket, when blocks
//! were put and marked, and what each gateway's last sync saw are kept up to each entry.
#![tactic(auto)]

mod differing;
mod followed;
mod found;
mod judging;
mod laws;
mod lies;
mod listing;
mod puts;
mod standing;
mod tables;
mod times;
mod walking;
mod watching;

pub use found::{Breach, BreachRule};
pub use laws::answers_are_one;
pub use standing::Standing;
pub use walking::breach;

//! Merging series sample by sample: at each label set and time the pattern that came first stays. And what a block that is made
//! of others says of itself.
#![tactic(auto)]

mod compacted;
mod merger;
mod plan_laws;
mod sample_merge;

pub use compacted::compacted_plan;
pub use merger::Merger;
pub use plan_laws::compacted_plans_are_one;

//! Which blocks of a bucket a compactor takes together: groups of blocks, and the plan of a group.
#![tactic(auto)]

mod group;
mod keyed;
mod members;
mod overlap;
mod parts;
mod planning;
mod selection;

pub use group::{Group, GroupList, groups};
pub use members::{MetaList, UlidListList};
pub use overlap::overlapping;
pub use parts::split_by_range;
pub use planning::{plan, planned_metas};
pub use selection::select;

//! The sync of a gateway: which blocks the bucket holds, as far as the gateway looks at them.
#![tactic(auto)]

mod filters;
mod laws;
mod rules;
mod running;
mod sync;
mod view;

pub use laws::syncs_are_plans;
pub use rules::SyncRules;
pub use running::run_sync;
pub use sync::{Sync, SyncEnd};
pub use view::View;

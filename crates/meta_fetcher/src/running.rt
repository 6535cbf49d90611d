//! A sync, begun and driven through a hand.

ghost use Rattle.std.specs.Prelude.{◌≤◌, None};
ghost use Rattle.world_core.specs.Machines.{Drives, is_driven_full, is_driven_wanting};
ghost use Rattle.world_core.specs.Turning.{Turned};
ghost use Rattle.meta_fetcher.specs.Syncs.{SyncRun};

use crate::{Sync, SyncEnd, SyncRules};
use std::alloc::Global;
use world_core::{Driven, Hand, run_begun};

/// Syncs a gateway by these rules.
pub fn run_sync<H: Hand>(alloc: Global, rules: SyncRules, hand: &mut H) -> Driven<SyncEnd>
    requires { 1 ≤ rules.page_limit }
    ensures run { Drives (SyncRun rules)
        (H.told hand.old).seat None result (H.told hand.old).entries (H.told hand.new).entries }
    ensures hand { Turned H.told H.keeps hand.old hand.new (is_driven_full result)
        (is_driven_wanting result) }
{
    run_begun(Sync::start(alloc, rules), None, hand)
}

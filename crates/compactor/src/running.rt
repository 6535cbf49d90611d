//! A compaction, begun and driven through a hand.

ghost use Rattle.std.specs.Prelude.{◌≤◌};
ghost use Rattle.world_core.specs.Machines.{Drives, is_driven_full, is_driven_wanting};
ghost use Rattle.world_core.specs.Turning.{Turned};
ghost use Rattle.compactor.specs.Compactions.{CompactRun};

use crate::{Compact, CompactEnd};
use moment_core::Rules;
use std::alloc::Global;
use world_core::{Driven, Hand, run_begun};

/// Compacts by these rules, and stops after so many operations if it is told to.
pub fn run_compaction<H: Hand>(
    alloc: Global,
    rules: &Rules,
    stop: Option<u32>,
    hand: &mut H,
) -> Driven<CompactEnd>
    requires { 1 ≤ rules.now.page_limit }
    ensures run { Drives (CompactRun rules.now)
        (H.told hand.old).seat stop result (H.told hand.old).entries (H.told hand.new).entries }
    ensures hand { Turned H.told H.keeps hand.old hand.new (is_driven_full result)
        (is_driven_wanting result) }
{
    run_begun(Compact::start(alloc, rules), stop, hand)
}

//! The keeping of the bucket: compactions and cleanings.

ghost use Rattle.std.specs.Prelude.{◌≡◌, ◌≤◌, Option};
ghost use Rattle.world_core.specs.Turning.{Turned};
ghost use Rattle.compactor.specs.Compactions.{compaction};
ghost use Rattle.cleaner.specs.Cleanings.{cleaning};
ghost use Rattle.script_workers.specs.declared.work.Work.TheVariants as works;
ghost use Rattle.lifecycle_core.specs.Tasks.{End, StoppedRun, cleaned, compacted};
ghost use Rattle.script_running.specs.Drives.{clean_came, compact_came};
ghost use Rattle.script_running.specs.Tasks.{Adds, CameBy, is_full_came, is_short_came};

use crate::stopping::stop_of;
use crate::{Broken, Came, Part};
use cleaner::{CleanEnd, run_cleaning};
use compactor::{CompactEnd, run_compaction};
use moment_core::Rules;
use std::alloc::Global;
use world_core::{Driven, Hand};

/// Compacts by these rules, and stops after so many operations where the script says so.
pub(crate) fn compact<H: Hand>(
    alloc: Global,
    rules: &Rules,
    stop: Option<u32>,
    hand: &mut H,
) -> Result<Part, Broken>
    requires { 1 ≤ rules.now.page_limit }
    ensures ran { (end : Option End)
        × Adds (StoppedRun (compaction rules.now) compacted stop) (H.told hand.old).seat
        (H.told hand.old).entries (H.told hand.new).entries end result
        × CameBy (works.Compact stop) end result }
    ensures hand { Turned H.told H.keeps hand.old hand.new (is_full_came result)
        (is_short_came result) }
{
    compact_came(run_compaction(alloc, rules, stop, hand))
}

/// What a compaction came to that was driven.
fn compact_came(driven: Driven<CompactEnd>) -> Result<Part, Broken>
    ensures { result ≡ compact_came driven }
{
    Ok(Came::Compact(stop_of(driven)?))
}

/// Cleans by these rules, and stops after so many operations where the script says so.
pub(crate) fn clean<H: Hand>(
    alloc: Global,
    rules: &Rules,
    stop: Option<u32>,
    hand: &mut H,
) -> Result<Part, Broken>
    requires { 1 ≤ rules.now.page_limit }
    ensures ran { (end : Option End)
        × Adds (StoppedRun (cleaning rules.now) cleaned stop) (H.told hand.old).seat
        (H.told hand.old).entries (H.told hand.new).entries end result
        × CameBy (works.Clean stop) end result }
    ensures hand { Turned H.told H.keeps hand.old hand.new (is_full_came result)
        (is_short_came result) }
{
    clean_came(run_cleaning(alloc, rules, stop, hand))
}

/// What a cleaning came to that was driven.
fn clean_came(driven: Driven<CleanEnd>) -> Result<Part, Broken>
    ensures { result ≡ clean_came driven }
{
    Ok(Came::Clean(stop_of(driven)?))
}

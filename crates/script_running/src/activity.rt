//! Uploads, syncs and calls as a script's workers do them: what each takes of the script, and how its end is told as
//! the part of the worker who did it.

ghost use Rattle.std.specs.Prelude.{◌≡◌, ◌≤◌, ℕ, false, Option, Some, option_map, slice_get, unwrap_or};
ghost use Rattle.world_core.specs.Machines.{end_of};
ghost use Rattle.world_core.specs.Turning.{Turned};
ghost use Rattle.meta_fetcher.specs.declared.sync.SyncEnd.{SyncEnd};
ghost use Rattle.meta_fetcher.specs.Syncs.{SyncRun};
ghost use Rattle.script_core.specs.Lawful.{IsLawfulBlock};
ghost use Rattle.script_workers.specs.declared.work.Work.TheVariants as works;
ghost use Rattle.lifecycle_core.specs.Tasks.{End, ShipTask, all_times, sync_rules, synced};
ghost use Rattle.lifecycle_core.specs.Setting.{Setting};
ghost use Rattle.script_running.specs.Lending.{setting_in};
ghost use Rattle.script_running.specs.Outcomes.{sync_outcome};
ghost use Rattle.script_running.specs.Drives.{sync_came, unshipped_came, upload_came};
ghost use Rattle.script_running.specs.Shelves.{Knows};
ghost use Rattle.script_running.specs.Tasks.{Adds, CameBy, is_full_came, is_short_came, view_by};

use crate::plan::objects_of;
use crate::shelf::ShelfBlock;
use crate::stopping::stop_of;
use crate::unshipped::Unshipped;
use crate::{Broken, Came, Means, Part, SyncOutcome};
use meta_fetcher::{SyncEnd, SyncRules, View, run_sync};
use moment_core::{Partition, PartitionList};
use script_core::Block;
use shipper::{UploadEnd, run_upload};
use std::alloc::Global;
use world_core::{Driven, Hand};

/// Ships a declared block, and stops after so many operations where the script says so.
pub(crate) fn upload<H: Hand>(
    alloc: Global,
    block: &Block,
    shelf: &[ShelfBlock],
    stop: Option<u32>,
    hand: &mut H,
) -> Result<Part, Broken>
    requires lawful { IsLawfulBlock block.now }
    requires known { (setting : Setting) × Knows setting shelf.now block.now }
    ensures ran { (setting : Setting) (ulid : ℕ) → Knows setting shelf.now block.now
        → (end : Option End)
        × Adds (ShipTask setting block.now stop) (H.told hand.old).seat (H.told hand.old).entries
        (H.told hand.new).entries end result
        × CameBy (works.Upload ulid stop) end result }
    ensures hand { Turned H.told H.keeps hand.old hand.new (is_full_came result)
        (is_short_came result) }
{
    match objects_of(alloc, block, shelf) {
        Ok(objects) => upload_came(run_upload(objects, stop, hand)),
        Err(why) => unshipped_came(why),
    }
}

/// What an upload came to that was driven.
fn upload_came(driven: Driven<UploadEnd>) -> Result<Part, Broken>
    ensures { result ≡ upload_came driven }
{
    Ok(Came::Upload(stop_of(driven)?))
}

/// What an upload came to whose block has no objects.
fn unshipped_came(why: Unshipped) -> Result<Part, Broken>
    ensures came { result ≡ unshipped_came why }
    ensures other { is_full_came result ≡ false }
{
    match why {
        Unshipped::Refused(number) => Ok(Came::Unshipped(number)),
        Unshipped::NoMemory => Err(Broken::NoMemory),
    }
}

/// A sync of the gateway at a place, whose view it sets where it ends with one.
pub(crate) fn sync<H: Hand>(
    alloc: Global,
    means: &Means<'_>,
    place: u32,
    view: &mut Option<View>,
    hand: &mut H,
) -> Result<Part, Broken>
    ensures ran { (end : Option SyncEnd)
        × Adds (SyncRun (sync_rules (setting_in means.now) place)) (H.told hand.old).seat
        (H.told hand.old).entries (H.told hand.new).entries end result
        × CameBy (works.Sync place) (option_map synced end) result
        × (view.new ≡ view_by view.old end) }
    ensures hand { Turned H.told H.keeps hand.old hand.new (is_full_came result)
        (is_short_came result) }
{
    take_view(run_sync(alloc, sync_rules(means, place), hand), view)
}

/// By what the gateway at a place syncs.
fn sync_rules(means: &Means<'_>, place: u32) -> SyncRules
    ensures rules { result ≡ sync_rules (setting_in means.now) place }
    ensures pages { 1 ≤ result.page_limit }
{
    let rules = means.rules();
    SyncRules {
        consistency: rules.consistency,
        mark_delay: rules.ignore,
        page_limit: rules.page_limit,
        partition: partition_of(means.partitions(), place),
    }
}

/// The times for which the gateway at a place answers.
fn partition_of(partitions: &PartitionList, place: u32) -> Partition
    ensures { result ≡ unwrap_or (slice_get partitions.now place) all_times }
{
    match partitions.get(place as usize) {
        Some(partition) => *partition,
        None => Partition::all_times(),
    }
}

/// What a drive of a sync came to. A view that it gave is the gateway's from now on.
fn take_view(driven: Driven<SyncEnd>, view: &mut Option<View>) -> Result<Part, Broken>
    ensures came { result ≡ sync_came driven }
    ensures view { view.new ≡ view_by view.old (end_of driven) }
{
    match driven {
        Driven::Ended(end) => Ok(Came::Sync(sync_outcome(end, view))),
        Driven::Full => Err(Broken::Full),
        Driven::Stopped(_) | Driven::NoMemory => Err(Broken::NoMemory),
    }
}

fn sync_outcome(end: SyncEnd, view: &mut Option<View>) -> SyncOutcome
    ensures outcome { result ≡ sync_outcome end }
    ensures view { view.new ≡ view_by view.old (Some end) }
{
    match end {
        SyncEnd::View(found) => {
            let count = found.kept.len() as u64;
            *view = Some(found);
            SyncOutcome::Blocks(count)
        }
        SyncEnd::Fault(entry) => SyncOutcome::Fault(entry),
        SyncEnd::Damaged(entry) => SyncOutcome::Damaged(entry),
        SyncEnd::TooMany => SyncOutcome::TooMany,
    }
}

//! The blocks that a script takes from the shelf, each of which is read once, before anything is done. Their files are loaded in the
//! blocks' order, and then they are checked, in a way that the caller hands in.

ghost use Rattle.std.specs.Prelude.{◌≡◌, ◌⊎◌, ◌+◌, ◌≤◌, ◌++◌, [], List, Err, None, Option, Some, IfErr, IfOk, IfSome, MatchResult, length, option_map, take};
ghost use Rattle.std.specs.List.{AllZip};
ghost use Rattle.bucket_core.specs.Contents.{Contents};
ghost use Rattle.block_content.specs.Checked.{checked_files, checked_samples, checked_series};
ghost use Rattle.block_content.specs.Checking.{HasPassed};
ghost use Rattle.block_loading.specs.Loading.{AreWithinLimit};
ghost use Rattle.script_core.specs.Lawful.{IsLawfulScript};
ghost use Rattle.script_core.specs.declared.block.Block.{Block};
ghost use Rattle.report_lines.specs.script_running.specs.Shelves.{AreAllAtHand, IsHeld, read_as, setting_by};
ghost use Rattle.call_verdicts.specs.Asked.{WasAsked, WasRead, names_asked, shelf_ulids};
ghost use Rattle.call_verdicts.specs.Checks.{HasFailed, files_held, files_in};
ghost use Rattle.call_verdicts.specs.ShelfReads.{AreRead, IsBrokenOff, IsOfShelf, IsReadBy, IsReadNext, WhyUnread};
ghost use Rattle.call_verdicts.specs.Stages.{IsEndedFor};
ghost use Rattle.call_verdicts.specs.Verdicts.{IfShort};

use crate::shelf_loading::load_group;
use crate::{CheckWay, Stage, Verdict};
use base::NoMemory;
use block_content::Checked;
use block_loading::LoadRefusal;
use bucket_core::Shelf;
use report_lines::script_running::{ShelfBlock, ShelfBlockList};
use script_core::{Block, Script};
use std::alloc::Global;
use std::mem;

/// What was read of the blocks that a script takes from the shelf, or what broke that off.
pub type ReadBlocks = Result<ShelfBlockList, Verdict>;

/// Reads the blocks that the script takes from the shelf, and checks them in this way. Without a shelf there is none of them.
pub fn read_blocks<F: Shelf, W: CheckWay>(
    alloc: Global,
    script: &Script,
    shelf: Option<F>,
    way: &W,
) -> (ReadBlocks, Option<F>)
    requires lawful { IsLawfulScript script.now }
    requires way { W.can_check way.now }
    ensures at_hand { IfOk result.0 (λ blocks. AreAllAtHand script.now blocks) }

    // Where the shelf tells its files, what was read is of them.
    ensures told { IfOk result.0 (λ blocks. IfSome (files_in F.told shelf)
        (IsOfShelf (setting_by script.now blocks))) }

    // Reading is broken off where the shelf fails, or memory is wanting.
    ensures broken { IfErr result.0 (IsBrokenOff (HasFailed F.told shelf result.1)) }
    ensures calm { IfSome shelf (λ files. (F.told files).faults ≡ 0)
        → MatchResult result.0 (λ _. IfSome result.1 (λ files. (F.told files).faults ≡ 0))
        (λ verdict. IfShort verdict (IfSome result.1 (λ files. (F.told files).faults ≡ 0))) }

    // Files of these blocks are asked for, and no others, each once.
    ensures asked { IfSome shelf (WasAsked (names_asked F.told) [])
        → IfSome result.1 (WasRead F.told (shelf_ulids script.now.blocks)) }
    ensures same { option_map (files_held F.told) result.1 ≡ option_map (files_held F.told) shelf }
{
    match shelf {
        Some(shelf) => {
            let (read, shelf) = read_each(alloc, script.blocks.members(), shelf, way);
            (read, Some(shelf))
        }
        None => (Ok(ShelfBlockList::new(alloc)), None),
    }
}

/// Reads those of the blocks that are taken from the shelf, in their order.
fn read_each<F: Shelf, W: CheckWay>(
    alloc: Global,
    blocks: &[Block],
    shelf: F,
    way: &W,
) -> (ReadBlocks, F)
    requires { W.can_check way.now }
    ensures read { IfOk result.0
        (λ read. AreRead (F.told shelf).files blocks.now read) }
    ensures broken { IfErr result.0 (WhyUnread (F.told shelf).faults (F.told result.1).faults) }
    ensures calm { IfOk result.0 (λ _. (F.told result.1).faults ≡ (F.told shelf).faults) }
    ensures asked { WasAsked (names_asked F.told) [] shelf
        → WasRead F.told (shelf_ulids blocks.now) result.1 }
    ensures same { (F.told result.1).files ≡ (F.told shelf).files }
{
    let mut shelf = shelf;
    let mut read = ShelfBlockList::new(alloc);
    let mut start = 0;
    while start < blocks.len() {
        let count = way.at_once().min(blocks.len() - start);
        let group = part_of(blocks, start, count);
        let (came, next) = read_group(alloc, group, &mut read, shelf, way);
        shelf = next;
        start += count;
        if let Err(verdict) = came {
            drop(read);
            return (Err(verdict), shelf);
        }
    }
    (Ok(read), shelf)
}

/// So many blocks from a place on.
fn part_of(blocks: &[Block], start: usize, count: usize) -> &[Block]
    requires { start + count ≤ length blocks.now }
    ensures { take start blocks.now ++ result.now ≡ take (start + count) blocks.now }
{
    &blocks[start..start + count]
}

/// Loads those of a group that are taken from the shelf, and then checks them.
fn read_group<F: Shelf, W: CheckWay>(
    alloc: Global,
    group: &[Block],
    read: &mut ShelfBlockList,
    shelf: F,
    way: &W,
) -> (Result<(), Verdict>, F)
    requires { W.can_check way.now }
    ensures read { (before : List Block) → AreRead (F.told shelf).files before read.old
        → IfOk result.0 (λ _. AreRead (F.told shelf).files (before ++ group.now) read.new) }
    ensures broken { IfErr result.0 (WhyUnread (F.told shelf).faults (F.told result.1).faults) }
    ensures calm { IfOk result.0 (λ _. (F.told result.1).faults ≡ (F.told shelf).faults) }
    ensures asked { (front : List Block) → WasRead F.told (shelf_ulids front) shelf
        → WasRead F.told (shelf_ulids (front ++ group.now)) result.1 }
    ensures same { (F.told result.1).files ≡ (F.told shelf).files }
{
    let (loaded, shelf) = load_group(alloc, group, shelf);
    match loaded {
        Ok(mut stages) => {
            let all = stages.as_mut_slice();
            way.check_all(alloc, all);
            (keep_group(alloc, group, all, read), shelf)
        }
        Err(verdict) => (Err(verdict), shelf),
    }
}

/// Keeps what was read of a group. The end of each check is known.
fn keep_group(
    alloc: Global,
    group: &[Block],
    stages: &mut [Stage],
    read: &mut ShelfBlockList,
) -> Result<(), Verdict>
    requires many { length stages.old ≡ length group.now }
    requires ended { AllZip (IsEndedFor None) group.now stages.old }
    ensures read { (told : Option Contents) (before : List Block)
        → AllZip (IsEndedFor told) group.now stages.old → AreRead told before read.old
        → IfOk result (λ _. AreRead told (before ++ group.now) read.new) }
    ensures only { IfErr result (λ verdict. verdict ≡ Verdict.NoMemory) }
{
    for place in 0..group.len() {
        let stage = mem::replace(&mut stages[place], Stage::Aside);
        keep_next(alloc, &group[place], stage, read)?;
    }
    Ok(())
}

/// Keeps what was read of the block, where the script takes it from the shelf.
fn keep_next(
    alloc: Global,
    block: &Block,
    stage: Stage,
    read: &mut ShelfBlockList,
) -> Result<(), Verdict>
    requires { IsEndedFor None block.now stage }
    ensures read { (told : Option Contents) → IsEndedFor told block.now stage
        → IfOk result (λ _. IsReadNext told block.now read.old read.new) }
    ensures only { IfErr result (λ verdict. verdict ≡ Verdict.NoMemory) }
{
    match stage {
        Stage::Ended(checked) => {
            let one = read_of(alloc, block, checked)?;
            match read.push(one) {
                Ok(()) => Ok(()),
                Err(_) => Err(Verdict::NoMemory),
            }
        }
        Stage::Aside => Ok(()),
        Stage::Loaded(_) => unreachable!(),
    }
}

/// What was read of a block, by its check.
fn read_of(
    alloc: Global,
    block: &Block,
    checked: Result<Checked, LoadRefusal>,
) -> Result<ShelfBlock, Verdict>
    requires passed { IfOk checked (λ own. HasPassed block.now.ulid (checked_files own)
        (checked_series own) (checked_samples own)) }
    requires within { IfOk checked (λ own. AreWithinLimit (checked_files own)) }
    ensures ulid { IfOk result (λ read. read.ulid ≡ block.now.ulid) }
    ensures held { IfOk result (λ read. IsHeld block.now read.found) }
    ensures read { IfOk result (λ read. IsReadBy checked
        (read_as block.now.ulid (Some read.found))) }
    ensures fault { result ≡ Err Verdict.SiteFault → checked ≡ Err LoadRefusal.ShelfFault }
    ensures only { IfErr result
        (λ verdict. (verdict ≡ Verdict.SiteFault) ⊎ (verdict ≡ Verdict.NoMemory)) }
{
    match checked {
        Ok(checked) => match ShelfBlock::of_checked(alloc, block, checked) {
            Ok(read) => Ok(read),
            Err(NoMemory) => Err(Verdict::NoMemory),
        },
        Err(LoadRefusal::Refused(refusal)) => Ok(ShelfBlock::of_refusal(block.ulid, refusal)),
        Err(LoadRefusal::ShelfFault) => Err(Verdict::SiteFault),
        Err(LoadRefusal::NoMemory) => Err(Verdict::NoMemory),
    }
}

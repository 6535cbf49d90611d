//! What was read of the shelf for the blocks that a script takes from there.

ghost use Rattle.std.specs.Prelude.{◌≡◌, ◌==◌, ◌⊎◌, Err, find, option_map};
ghost use Rattle.lifecycle_core.specs.Shipped.{cause_number};
ghost use Rattle.script_running.specs.Shelves.{found_in, from_found, numbered_by};

use crate::unshipped::Unshipped;
use base::{List, NoMemory, TryCopy};
use block_content::{CheckRefusal, Checked};
use block_keys::ObjectList;
use block_meta::BlockFiles;
use script_core::Block;
use std::alloc::Global;
use std::snapshot::Snapshot;
use ulid_core::Ulid;

/// The number of the cause that a file is not there.
const NO_FILE: u8 = 1;

/// The number of the cause that a file is too large.
pub(crate) const TOO_LARGE: u8 = 7;

/// What was read of the shelf for a block.
#[derive(Drop)]
pub struct ShelfBlock {
    pub ulid: Ulid,
    pub found: ShelfFound,
}

/// What was read of the shelf for some blocks.
pub type ShelfBlockList = List<ShelfBlock>;

/// Whether a block of the shelf is shipped.
#[derive(Drop)]
pub enum ShelfFound {
    /// The objects with which it is shipped, of these files.
    Objects(ObjectList, Snapshot<BlockFiles>),
    /// It is not, for the cause of this number.
    Refused(Option<u8>, Snapshot<CheckRefusal>),
}

impl ShelfBlock {
    ghost use Rattle.std.specs.Prelude.{◌≡◌, IfOk, Some};
    ghost use Rattle.block_content.specs.Checked.{checked_files, checked_samples, checked_series};
    ghost use Rattle.block_content.specs.Checking.{HasPassed};
    ghost use Rattle.lifecycle_core.specs.Shipped.{AreShort};
    ghost use Rattle.lifecycle_core.specs.Setting.{holding, refusing};
    ghost use Rattle.script_running.specs.Shelves.{IsHeld, read_as, series_in};

    /// A block of which the shelf has files that pass.
    pub fn of_checked(
        alloc: Global,
        block: &Block,
        checked: Checked,
    ) -> Result<ShelfBlock, NoMemory>
        requires passed { HasPassed block.now.ulid (checked_files checked)
            (checked_series checked) (checked_samples checked) }
        requires short { AreShort (checked_files checked) }
        ensures ulid { IfOk result (λ read. read.ulid ≡ block.now.ulid) }
        ensures held { IfOk result (λ read. IsHeld block.now read.found) }
        ensures files { IfOk result (λ read. read_as block.now.ulid (Some read.found)
            ≡ holding (checked_files checked) (series_in (checked_files checked))) }
    {
        let files = checked.files();
        let of = Snapshot::of(files);
        let objects = checked.objects(alloc, &block.labels)?;
        Ok(ShelfBlock {
            ulid: block.ulid,
            found: ShelfFound::Objects(objects, of),
        })
    }

    /// A block that is not shipped.
    pub fn of_refusal(ulid: Ulid, refusal: CheckRefusal) -> ShelfBlock
        ensures ulid { result.ulid ≡ ulid }
        ensures held { (block : Block) → IsHeld block result.found }
        ensures refusal { read_as ulid (Some result.found) ≡ refusing refusal }
    {
        let number = cause_number(&refusal);
        ShelfBlock {
            ulid,
            found: ShelfFound::Refused(number, Snapshot::of(&refusal)),
        }
    }
}

/// The objects of a block of the shelf. One of which nothing was read is not there.
pub(crate) fn shelf_objects(shelf: &[ShelfBlock], ulid: Ulid) -> Result<ObjectList, Unshipped>
    ensures { (result ≡ from_found (found_in shelf.now ulid)) ⊎ (result ≡ Err Unshipped.NoMemory) }
{
    match find_found(shelf, ulid) {
        Some(ShelfFound::Objects(objects, _)) => match objects.copy() {
            Ok(objects) => Ok(objects),
            Err(_) => Err(Unshipped::NoMemory),
        },
        Some(ShelfFound::Refused(number, _)) => Err(unshipped_by(*number)),
        None => Err(Unshipped::Refused(u32::from(NO_FILE))),
    }
}

/// What was read for a block, if anything was.
fn find_found(shelf: &[ShelfBlock], ulid: Ulid) -> Option<&ShelfFound>
    ensures { option_map (λ found. found.now) result ≡ found_in shelf.now ulid }
{
    match find_read(shelf, ulid) {
        Some(block) => Some(&block.found),
        None => None,
    }
}

fn find_read(shelf: &[ShelfBlock], ulid: Ulid) -> Option<&ShelfBlock>
    ensures { option_map (λ block. block.now) result
        ≡ find (λ block. block.ulid == ulid) shelf.now }
{
    shelf.iter().find(|block| block.ulid == ulid)
}

/// Why a block has no objects, by the number of its cause.
fn unshipped_by(number: Option<u8>) -> Unshipped
    ensures { result ≡ numbered_by number }
{
    match number {
        Some(number) => Unshipped::Refused(u32::from(number)),
        None => Unshipped::NoMemory,
    }
}

/// The place of a cause in the list of causes, which is counted from 1. Want of memory is no cause.
pub fn cause_number(refusal: &CheckRefusal) -> Option<u8>
    ensures { result ≡ cause_number refusal.now }
{
    match refusal {
        CheckRefusal::NoFile(_) => Some(NO_FILE),
        CheckRefusal::BadMeta(_) => Some(2),
        CheckRefusal::UlidDiffers => Some(3),
        CheckRefusal::NotLevelOne => Some(4),
        CheckRefusal::SourcesNotSelf => Some(5),
        CheckRefusal::Downsampled => Some(6),
        CheckRefusal::TooLarge(_) => Some(TOO_LARGE),
        CheckRefusal::BadIndex(_) => Some(8),
        CheckRefusal::EmptyBlock => Some(9),
        CheckRefusal::BadChunk { .. } => Some(10),
        CheckRefusal::OutsideRange { .. } => Some(11),
        CheckRefusal::Repeated(_) => Some(12),
        CheckRefusal::NamesTooMuch => Some(13),
        CheckRefusal::NoMemory => None,
    }
}

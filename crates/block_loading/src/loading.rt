//! Loading a block's files from a shelf.
ghost use Rattle.std.specs.Prelude.{◌≡◌, ◌⊎◌, Some, Err, IfOk};
ghost use Rattle.std.specs.Result.{IsOkAnd};
ghost use Rattle.block_meta.specs.declared.block_files.BlockFiles.{BlockFiles};
ghost use Rattle.block_content.specs.declared.check_refusal.CheckRefusal.{CheckRefusal};
ghost use Rattle.bucket_core.specs.Contents.{Contents};
ghost use Rattle.block_loading.specs.Loading.{IsLoaded, RefusesLoad, AreWithinLimit, AreNamed, StopsAt};
ghost use Rattle.block_loading.specs.LoadReading.{Loads, KeepsShelf, AsksInOrder, WasBrokenOff, was_fault, parts_of, load_at};

use crate::reading::{read_meta, read_named, read_segments};
use crate::{LoadRefusal, LoadedBlock};
use block_meta::BlockFiles;
use bucket_core::Shelf;
use std::alloc::Global;
use ulid_core::Ulid;

/// Reads the meta of a block, its index, and the segments from the first to the greatest that the index names.
pub(crate) fn read_block<F: Shelf>(
    alloc: Global,
    shelf: &mut F,
    ulid: Ulid,
) -> Result<BlockFiles, LoadRefusal>
    ensures loaded { (told : Contents) → (F.told shelf.old).files ≡ Some told
        → Loads parts_of result (load_at told ulid) }
    ensures named { IfOk result AreNamed }
    ensures within { IfOk result AreWithinLimit }
    ensures asks { AsksInOrder F.told shelf.old shelf.new
        ulid (StopsAt ulid) (λ files. files.segments) result }
    ensures kept { KeepsShelf F.told shelf.old shelf.new (was_fault result) }
{
    let meta = read_meta(alloc, shelf, ulid)?;
    let (index, last) = read_named(alloc, shelf, ulid)?;
    let segments = read_segments(alloc, shelf, ulid, last)?;
    Ok(BlockFiles {
        meta,
        index,
        segments,
    })
}

/// Loads a block's files from a shelf.
///
/// The meta comes first, and then the index, whose chunks tell how many segments follow. A segment's number has six digits, so
/// there are no more than these. The first file that is refused ends the load, and none behind it is read: so does the first segment
/// with which the segments together pass 1 GiB.
pub fn load<F: Shelf>(alloc: Global, shelf: &mut F, ulid: Ulid) -> Result<BlockFiles, LoadRefusal>
    // Where the shelf tells its files, they are the block's, and a block that the shelf has is loaded.
    ensures found { (told : Contents) → (F.told shelf.old).files ≡ Some told
        → IfOk result (λ files. IsLoaded told ulid files) }
    ensures only { (told : Contents) → (F.told shelf.old).files ≡ Some told
        → (files : BlockFiles) → IsLoaded told ulid files
        → IsOkAnd result (λ loaded. loaded ≡ files) ⊎ WasBrokenOff result }

    // A refusal is the first in the order of reading.
    ensures refused { (told : Contents) → (F.told shelf.old).files ≡ Some told
        → (refusal : CheckRefusal) → result ≡ Err (LoadRefusal.Refused refusal)
        → RefusesLoad told ulid refusal }
    ensures refuses { (told : Contents) → (F.told shelf.old).files ≡ Some told
        → (refusal : CheckRefusal) → RefusesLoad told ulid refusal
        → (result ≡ Err (LoadRefusal.Refused refusal)) ⊎ WasBrokenOff result }

    // Whatever the shelf tells, exactly the segments up to the last that the index names are loaded, and no more bytes of them than
    // a load may hold.
    ensures named { IfOk result AreNamed }
    ensures within { IfOk result AreWithinLimit }

    // Files of the block are asked for, and no others, each once and in the order of reading. A refusal or a
    // fault is that of the last one.
    ensures asks { AsksInOrder F.told shelf.old shelf.new
        ulid (StopsAt ulid) (λ files. files.segments) result }

    // The files stay as they are, and the shelf's count rises just where a fault is answered.
    ensures kept { KeepsShelf F.told shelf.old shelf.new (was_fault result) }
{
    let block = LoadedBlock::load(alloc, shelf, ulid)?;
    Ok(block.files)
}

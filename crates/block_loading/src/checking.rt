//! Whether a block of a shelf may be shipped.
ghost use Rattle.std.specs.Prelude.{◌≡◌, ◌⊎◌, List, Some, Ok, Err, IfOk, length, false};
ghost use Rattle.std.specs.Result.{IsOkAnd};
ghost use Rattle.label_sets.specs.declared.series.Series.{Series};
ghost use Rattle.label_sets.specs.Counts.{sample_count};
ghost use Rattle.block_meta.specs.declared.block_files.BlockFiles.{BlockFiles};
ghost use Rattle.block_content.specs.Checking.{HasPassed};
ghost use Rattle.block_content.specs.Checked.{checked_files, checked_series, checked_samples};
ghost use Rattle.block_content.specs.declared.check_refusal.CheckRefusal.{CheckRefusal};
ghost use Rattle.bucket_core.specs.Contents.{Contents};
ghost use Rattle.block_loading.specs.Loading.{IsLoaded, PassesOnShelf, RefusesOnShelf, AreWithinLimit, AreNamed, StopsOnShelf};
ghost use Rattle.block_loading.specs.LoadReading.{KeepsShelf, AsksInOrder, WasBrokenOff, was_fault};

use crate::{LoadRefusal, LoadedBlock};
use block_content::Checked;
use bucket_core::Shelf;
use std::alloc::Global;
use ulid_core::Ulid;

/// Loads a block from a shelf, and tests whether it may be shipped under its ULID.
pub fn check_on_shelf<F: Shelf>(
    alloc: Global,
    shelf: &mut F,
    ulid: Ulid,
) -> Result<Checked, LoadRefusal>
    // What is answered passes, whatever the shelf tells; where it tells its files, they are the block's.
    ensures passed { IfOk result (λ checked.
        HasPassed ulid (checked_files checked) (checked_series checked) (checked_samples checked)) }
    ensures within { IfOk result (λ checked. AreWithinLimit (checked_files checked)) }
    ensures named { IfOk result (λ checked. AreNamed (checked_files checked)) }
    ensures found { (told : Contents) → (F.told shelf.old).files ≡ Some told
        → IfOk result (λ checked. IsLoaded told ulid (checked_files checked)) }

    // A block that the shelf has and that passes is answered with its counts.
    ensures passes { (told : Contents) → (F.told shelf.old).files ≡ Some told
        → (files : BlockFiles) (list : List Series) → PassesOnShelf told ulid files list
        → IsOkAnd result (λ checked. (checked_files checked ≡ files)
        × (checked_series checked ≡ length list) × (checked_samples checked ≡ sample_count list))
        ⊎ WasBrokenOff result }

    // A refusal is the first of loading, and then of the check.
    ensures refused { (told : Contents) → (F.told shelf.old).files ≡ Some told
        → (refusal : CheckRefusal) → result ≡ Err (LoadRefusal.Refused refusal)
        → RefusesOnShelf told ulid refusal }
    ensures refuses { (told : Contents) → (F.told shelf.old).files ≡ Some told
        → (refusal : CheckRefusal) → RefusesOnShelf told ulid refusal
        → (result ≡ Err (LoadRefusal.Refused refusal)) ⊎ WasBrokenOff result }

    // Files of the block are asked for, and no others, each once and in the order of reading. A refusal is that of the last one, or
    // of the whole block; a fault is that of the last one.
    ensures asks { AsksInOrder F.told shelf.old shelf.new
        ulid (StopsOnShelf ulid) (λ checked. (checked_files checked).segments) result }

    // The files stay as they are, and the shelf's count rises just where a fault is answered.
    ensures kept { KeepsShelf F.told shelf.old shelf.new (was_fault result) }
{
    let block = LoadedBlock::load(alloc, shelf, ulid)?;
    block.check(alloc)
}

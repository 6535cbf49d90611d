//! Blocks that were loaded from a shelf and are to be checked, which needs no shelf.
use crate::LoadRefusal;
use crate::loading::read_block;
use crate::reading::refused_block;
use block_content::{Checked, check};
use block_meta::BlockFiles;
use bucket_core::Shelf;
use std::alloc::Global;
use ulid_core::Ulid;

/// The files of a block that were loaded from a shelf, to be checked under its ULID.
#[derive(Drop)]
pub struct LoadedBlock {
    ulid: Ulid,
    pub(crate) files: BlockFiles,
}

impl LoadedBlock {
    ghost use Rattle.std.specs.Prelude.{◌≡◌, ◌⊎◌, Some, Err, IfOk};
    ghost use Rattle.std.specs.Result.{IsOkAnd};
    ghost use Rattle.block_meta.specs.declared.block_files.BlockFiles.{BlockFiles};
    ghost use Rattle.block_content.specs.declared.check_refusal.CheckRefusal.{CheckRefusal};
    ghost use Rattle.bucket_core.specs.Contents.{Contents};
    ghost use Rattle.block_loading.specs.Loading.{AreNamed, AreWithinLimit, IsLoaded, RefusesLoad, StopsAt};
    ghost use Rattle.block_loading.specs.LoadReading.{AsksInOrder, KeepsShelf, WasBrokenOff, was_fault};
    ghost use Rattle.block_loading.specs.LoadedChecks.{EndsCheck, loaded_files, loaded_ulid};

    /// Loads a block's files from a shelf, as `load` does.
    pub fn load<F: Shelf>(
        alloc: Global,
        shelf: &mut F,
        ulid: Ulid,
    ) -> Result<LoadedBlock, LoadRefusal>
        ensures ulid { IfOk result (λ block. loaded_ulid block ≡ ulid) }

        // Where the shelf tells its files, they are the block's, and a block that the shelf has is loaded.
        ensures found { (told : Contents) → (F.told shelf.old).files ≡ Some told
            → IfOk result (λ block. IsLoaded told ulid (loaded_files block)) }
        ensures only { (told : Contents) → (F.told shelf.old).files ≡ Some told
            → (files : BlockFiles) → IsLoaded told ulid files
            → IsOkAnd result (λ block. loaded_files block ≡ files) ⊎ WasBrokenOff result }

        // A refusal is the first in the order of reading.
        ensures refused { (told : Contents) → (F.told shelf.old).files ≡ Some told
            → (refusal : CheckRefusal) → result ≡ Err (LoadRefusal.Refused refusal)
            → RefusesLoad told ulid refusal }
        ensures refuses { (told : Contents) → (F.told shelf.old).files ≡ Some told
            → (refusal : CheckRefusal) → RefusesLoad told ulid refusal
            → (result ≡ Err (LoadRefusal.Refused refusal)) ⊎ WasBrokenOff result }

        // Whatever the shelf tells, exactly the segments up to the last that the index names are loaded.
        ensures named { IfOk result (λ block. AreNamed (loaded_files block)) }
        ensures within { IfOk result (λ block. AreWithinLimit (loaded_files block)) }

        // Files of the block are asked for, and no others, each once and in the order of reading. A refusal or a
        // fault is that of the last one.
        ensures asks { AsksInOrder F.told shelf.old shelf.new
            ulid (StopsAt ulid) (λ block. (loaded_files block).segments) result }

        // The files stay as they are, and the shelf's count rises just where a fault is answered.
        ensures kept { KeepsShelf F.told shelf.old shelf.new (was_fault result) }
    {
        let files = read_block(alloc, shelf, ulid)?;
        Ok(LoadedBlock { ulid, files })
    }

    /// Tests whether the block may be shipped under its ULID.
    pub fn check(self, alloc: Global) -> Result<Checked, LoadRefusal>
        ensures { EndsCheck (loaded_ulid self) (loaded_files self) result }
    {
        let LoadedBlock { ulid, files } = self;
        match check(alloc, ulid, files) {
            Ok(checked) => Ok(checked),
            Err(refusal) => Err(refused_block(refusal)),
        }
    }
}

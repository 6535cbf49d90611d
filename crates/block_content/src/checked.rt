//! That a block of a shelf may be shipped, as a value: only a check makes one, so an upload has nothing more to ask. It
//! is shipped under the external labels of the script's line, whatever its own meta has there.

ghost use Rattle.block_content.specs.Checking.{HasPassed};

use crate::shipping::shipped_files;
use base::NoMemory;
use block_keys::ObjectList;
use block_meta::{BlockFiles, files_objects};
use label_sets::LabelSet;
use std::alloc::Global;
use ulid_core::Ulid;

/// A block that may be shipped, and how much it holds. Only a check makes one.
#[derive(Drop)]
pub struct Checked {
    files: BlockFiles,
    series: u64,
    /// How many samples there are, or the greatest number of 64 bits where there are more.
    samples: u64,
    ghost passed: { ∥ HasPassed files.meta.ulid files series samples ∥₁ },
}

impl Checked {
    ghost use Rattle.std.specs.Prelude.{◌≡◌, IfOk, OnOk};
    ghost use Rattle.std.specs.List.{AllByRecursion};
    ghost use Rattle.base.specs.Grammar.{IsBytes};
    ghost use Rattle.block_meta.specs.Built.{objects_of};
    ghost use Rattle.block_keys.specs.Blocks.{IsBlock};
    ghost use Rattle.block_meta.specs.Bounds.{HasFittingNumbers};
    ghost use Rattle.block_meta.specs.MetaFields.{fields_of};
    ghost use Rattle.block_meta.specs.MetaValue.{meta_text};
    ghost use Rattle.block_content.specs.Checking.{HasPassed};
    ghost use Rattle.block_content.specs.Checked.{checked_files, checked_series, checked_samples};
    ghost use Rattle.block_content.specs.Shipped.{shipped_meta};

    /// The files of a block that passes, with its counts.
    pub(crate) fn new(ulid: Ulid, files: BlockFiles, series: u64, samples: u64) -> Checked
        requires { HasPassed ulid files series samples }
        ensures files { checked_files result ≡ files }
        ensures series { checked_series result ≡ series }
        ensures samples { checked_samples result ≡ samples }
    {
        Checked {
            files,
            series,
            samples,
        }
    }

    /// The files, which pass a check and hold what was counted.
    pub fn files(&self) -> &BlockFiles
        ensures files { result.now ≡ checked_files self.now }
        ensures passed { ∥ HasPassed result.now.meta.ulid result.now
            (checked_series self.now) (checked_samples self.now) ∥₁ }
    {
        &self.files
    }

    /// How many series the block holds.
    pub fn series(&self) -> u64
        ensures { result ≡ checked_series self.now }
    {
        self.series
    }

    /// How many samples there are, or the greatest number of 64 bits where there are more.
    pub fn samples(&self) -> u64
        ensures { result ≡ checked_samples self.now }
    {
        self.samples
    }

    /// The files.
    pub fn into_files(self) -> BlockFiles
        ensures { result ≡ checked_files self }
    {
        self.files
    }

    /// The objects of the block in the order in which they are uploaded: segments ascending, index, meta. The meta has these
    /// external labels.
    pub fn objects(self, alloc: Global, external: &LabelSet) -> Result<ObjectList, NoMemory>
        ensures block { IfOk result (IsBlock (checked_files self).meta.ulid) }
        ensures objects { IfOk result (λ objects. objects
            ≡ objects_of (checked_files self).meta.ulid
            (checked_files self).segments (checked_files self).index
            (meta_text (shipped_meta (checked_files self).meta
            (checked_files self).segments (checked_files self).index external.now))) }

        // The files are bytes, as those of all blocks are, and the numbers of the meta fit.
        ensures bytes { OnOk result (IsBytes (checked_files self).index
            × AllByRecursion IsBytes (checked_files self).segments) }
        ensures numbers { OnOk result
            (HasFittingNumbers (fields_of (checked_files self).meta)) }
    {
        let files = shipped_files(alloc, self.files, external)?;
        files_objects(alloc, files)
    }
}

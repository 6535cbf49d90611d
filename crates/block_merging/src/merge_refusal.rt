ghost use Rattle.std.specs.Prelude.{◌≡◌};
ghost use Rattle.block_merging.specs.declared.merge_refusal.MergeRefusal.TheVariants.{NoMemory as WithoutMemory};

use block_content::CheckRefusal;
use std::alloc::AllocFailed;

/// Why blocks are not merged.
#[derive(Debug, PartialEq, Eq, Drop)]
pub enum MergeRefusal {
    /// The first block that holds no content, and why. Blocks are counted from 0, and a number above those of 32 bits stands as
    /// the greatest of them.
    Input(u32, CheckRefusal),
    /// The index of the merged block would be longer than an index may be.
    TooLarge,
    NoMemory,
}

impl From<base::NoMemory> for MergeRefusal {
    ghost from_gives = { λ _ e. e ≡ WithoutMemory };

    fn from(_: base::NoMemory) -> Self {
        MergeRefusal::NoMemory
    }
}

impl<T: Drop> From<AllocFailed<T>> for MergeRefusal {
    ghost from_gives = { λ _ e. e ≡ WithoutMemory };

    fn from(_: AllocFailed<T>) -> Self {
        MergeRefusal::NoMemory
    }
}

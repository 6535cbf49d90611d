//! Why a check finds that a block is not to be shipped, in the order in which it looks.

ghost use Rattle.std.specs.Prelude.{◌≡◌};
ghost use Rattle.block_content.specs.declared.check_refusal.CheckRefusal.TheVariants.{NoMemory as WithoutMemory};

use crate::ChunkCause;
use block_keys::Key;
use block_meta::MetaRefusal;
use index_v2::IndexRefusal;
use std::alloc::AllocFailed;

/// Why a block is not shipped, in the order in which it is looked for. Series and chunks are counted from 0, and a number
/// above those of 32 bits stands as the greatest of them.
#[derive(Debug, PartialEq, Eq, Drop)]
pub enum CheckRefusal {
    NoFile(Key),
    BadMeta(MetaRefusal),
    /// The meta tells another block.
    UlidDiffers,
    /// The block was compacted.
    NotLevelOne,
    /// The block holds samples of others than itself.
    SourcesNotSelf,
    Downsampled,
    /// A file has more than 67,108,864 bytes, or is a segment with which the segments together have more than 1,073,741,824.
    TooLarge(Key),
    BadIndex(IndexRefusal),
    /// The index has no series.
    EmptyBlock,
    /// The first refused chunk of the block, series by series.
    BadChunk {
        series: u32,
        chunk: u32,
        cause: ChunkCause,
    },
    /// The first sample that lies outside the block's times.
    OutsideRange {
        series: u32,
        time: i64,
    },
    /// The first series of which a chunk does not begin after the one before it ends.
    Repeated(u32),
    /// The chunks and the texts of labels that the index names, each counted as often as it is named, have many times the bytes
    /// of the block.
    NamesTooMuch,
    NoMemory,
}

impl From<base::NoMemory> for CheckRefusal {
    ghost from_gives = { λ _ e. e ≡ WithoutMemory };

    fn from(_: base::NoMemory) -> Self {
        CheckRefusal::NoMemory
    }
}

impl<T: Drop> From<AllocFailed<T>> for CheckRefusal {
    ghost from_gives = { λ _ e. e ≡ WithoutMemory };

    fn from(_: AllocFailed<T>) -> Self {
        CheckRefusal::NoMemory
    }
}

ghost use Rattle.std.specs.Prelude.{◌≡◌};
ghost use Rattle.block_content.specs.declared.chunk_cause.ChunkCause.TheVariants.{File as IsFile, Data as IsData};
ghost use Rattle.xor_chunks.specs.declared.refusal.XorRefusal.TheVariants.{NoMemory as WithoutMemory};

use base::NoMemory;
use chunk_files::ChunkRefusal;
use xor_chunks::XorRefusal;

/// Why the chunk at a place is refused.
#[derive(Clone, Copy, Debug, PartialEq, Eq)]
pub enum ChunkCause {
    /// No XOR data stands at the place. A segment that the block does not have counts as one without bytes.
    File(ChunkRefusal),
    /// The data stands for no samples.
    Data(XorRefusal),
    NoSamples,
    /// The first sample or the last one is not at the time that the place tells.
    TimesDiffer,
}

impl From<ChunkRefusal> for ChunkCause {
    ghost from_gives = { λ refusal e. e ≡ IsFile refusal };

    fn from(refusal: ChunkRefusal) -> Self {
        ChunkCause::File(refusal)
    }
}

impl From<XorRefusal> for ChunkCause {
    ghost from_gives = { λ refusal e. e ≡ IsData refusal };

    fn from(refusal: XorRefusal) -> Self {
        ChunkCause::Data(refusal)
    }
}

/// Data for which memory is wanting is not read.
impl From<NoMemory> for ChunkCause {
    ghost from_gives = { λ _ e. e ≡ IsData WithoutMemory };

    fn from(_: NoMemory) -> Self {
        ChunkCause::Data(XorRefusal::NoMemory)
    }
}

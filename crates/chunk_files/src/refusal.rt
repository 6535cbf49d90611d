ghost use Rattle.std.specs.Prelude.{◌≡◌};
ghost use Rattle.chunk_files.specs.declared.refusal.ChunkRefusal.TheVariants.{Short as IsShort};

use wire_bytes::WireRefusal;

/// Why no XOR data is read at a place.
#[derive(Clone, Copy, Debug, PartialEq, Eq)]
pub enum ChunkRefusal {
    /// The segment does not begin as one.
    BadMagic,
    BadVersion,
    /// The bytes end before the chunk does, its length is no number of 64 bits, or the place lies within the segment's header.
    Short,
    /// The sum that is kept behind the chunk is not that of its encoding and data.
    BadSum { kept: u32, computed: u32 },
    /// A histogram, with its encoding.
    Histogram(u8),
    UnknownEncoding(u8),
}

impl From<WireRefusal> for ChunkRefusal {
    ghost from_gives = { λ _ e. e ≡ IsShort };

    fn from(_: WireRefusal) -> Self {
        ChunkRefusal::Short
    }
}

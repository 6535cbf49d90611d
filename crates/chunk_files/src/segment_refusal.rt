ghost use Rattle.std.specs.Prelude.{◌≡◌};
ghost use Rattle.chunk_files.specs.declared.segment_refusal.SegmentRefusal.TheVariants.{NoMemory as IsNoMemory};

use base::NoMemory;

/// Why a chunk is not appended.
#[derive(Clone, Copy, Debug, PartialEq, Eq)]
pub enum SegmentRefusal {
    /// The segment would pass its greatest length.
    Full,
    NoMemory,
}

impl From<NoMemory> for SegmentRefusal {
    ghost from_gives = { λ _ e. e ≡ IsNoMemory };

    fn from(_: NoMemory) -> Self {
        SegmentRefusal::NoMemory
    }
}

ghost use Rattle.std.specs.List.Sorted.{IsNonDecreasingBy};

use base::{NoMemory, TryCopy};
use moment_core::Moment;
use sync_filters::FoundList;

/// What a gateway sees of the bucket.
#[derive(Drop)]
pub struct View {
    /// The number of the sync's first entry.
    pub first: u64,
    /// The moment of that entry.
    pub begin: Moment,
    /// The moment of the sync's last entry.
    pub end: Moment,
    /// The blocks that are looked at, ascending by ULID.
    pub kept: FoundList,
    /// The blocks that others hold whole, ascending by ULID.
    pub covered: FoundList,
    pub ghost kept_rise: { IsNonDecreasingBy (λ block. block.ulid) kept },
    pub ghost covered_rise: { IsNonDecreasingBy (λ block. block.ulid) covered },
}

impl TryCopy for View {
    fn copy(&self) -> Result<Self, NoMemory> {
        Ok(View {
            first: self.first,
            begin: self.begin,
            end: self.end,
            kept: self.kept.copy()?,
            covered: self.covered.copy()?,
        })
    }
}

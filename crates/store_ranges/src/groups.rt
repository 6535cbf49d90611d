//! Chunks that stand near one another in a segment.
ghost use Rattle.std.specs.Prelude.{◌≡◌, ◌+◌, ◌<◌, ◌/◌, ◌^◌, ◌↔◌, length, map, All, slice_index, IfOk, IsTrue};
ghost use Rattle.std.specs.List.Sorted.{IsStrictlyIncreasing};
ghost use Rattle.store_ranges.specs.Stretches.{stretch_at, IsSpanOf};
ghost use Rattle.store_ranges.specs.ChunkRanges.{AreGroups, IsNear, segment_of};

use crate::Span;
use base::NoMemory;
use std::alloc::Global;

/// How far a chunk of a group begins behind the one before it at most.
const REACH: u64 = 65_536;

/// Cuts references to chunks, which ascend, into the longest groups of which each stands near the
/// one before it.
pub fn groups_of_references(alloc: Global, references: &[u64]) -> Result<Vec<Span>, NoMemory>
    requires { IsStrictlyIncreasing references.now }
    ensures cut { IfOk result
        (λ groups. AreGroups references.now (map (stretch_at references.now) groups.items)) }
    ensures within { IfOk result (λ groups. All (IsSpanOf references.now) groups.items) }
{
    let mut groups = Vec::new(alloc);
    let mut start = 0;
    for place in 0..references.len() {
        if !goes_on(references, place) {
            groups.push(Span {
                start,
                end: place + 1,
            })?;
            start = place + 1;
        }
    }
    Ok(groups)
}

/// Whether the reference behind the one at a place stands near it.
fn goes_on(references: &[u64], place: usize) -> bool
    requires within { place < length references.now }
    requires rise { IsStrictlyIncreasing references.now }
    ensures { IsTrue result
        ↔ ((place + 1 < length references.now)
        × IsNear (slice_index references.now place) (slice_index references.now (place + 1))) }
{
    place + 1 < references.len() && is_near(references[place], references[place + 1])
}

/// Whether a reference stands near a lesser one.
fn is_near(one: u64, other: u64) -> bool
    requires { one < other }
    ensures { IsTrue result ↔ IsNear one other }
{
    one >> 32 == other >> 32 && other - one <= REACH
}

//! The places of the chunks that a call takes: those of its series that meet its times. They are sorted by where they
//! stand, as a read tells of a reference alone, and `places_of` finds by halving which series have their chunk there.
ghost use Rattle.std.specs.Prelude.{◌≡◌, ◌++◌, ◌*◌, ◌<◌, nat_lt, All, IsTrue, OnOk, IfOk};
ghost use Rattle.std.specs.List.{filter, flat_map};
ghost use Rattle.std.specs.List.Sorted.{IsPermutation, IsNonDecreasingBy};
ghost use Rattle.block_keys.specs.Keys.{segment_limit};
ghost use Rattle.index_parts.specs.SeriesEntry.{reference_of, offset_count};
ghost use Rattle.store_ranges.specs.ChunkRanges.{meets};
ghost use Rattle.store_chunks.specs.ChunkReads.{have_keys};
ghost use Rattle.store_chunks.specs.Taken.{taken};
ghost use Rattle.store_ranges.specs.Asking.{query_asked};

use base::NoMemory;
use block_keys::SEGMENT_LIMIT;
use index_parts::{ChunkPlace, IndexSeries, reference_of};
use store_ranges::Asked;

/// Whether a chunk tells a time in the range, or times on both sides.
pub(crate) fn meets(asked: &Asked<'_>, place: &ChunkPlace) -> bool
    ensures { result ≡ meets asked.now.low asked.now.high place.now }
{
    place.min <= asked.high && asked.low <= place.max
}

/// The places of these series that meet the range.
pub fn taken_places(asked: &Asked<'_>, series: &[IndexSeries]) -> Result<Vec<ChunkPlace>, NoMemory>
    ensures { IfOk result
        (λ places. places.items ≡ flat_map (taken (query_asked asked.now)) series.now) }
{
    let mut places = Vec::new(asked.alloc);
    for one in series {
        add_taken(asked, one.chunks.members(), &mut places)?;
    }
    Ok(places)
}

fn add_taken(
    asked: &Asked<'_>,
    chunks: &[ChunkPlace],
    places: &mut Vec<ChunkPlace>,
) -> Result<(), NoMemory>
    ensures { OnOk result
        (places.new.items ≡ places.old.items
        ++ filter (meets asked.now.low asked.now.high) chunks.now) }
{
    for place in chunks {
        if meets(asked, place) {
            places.push(*place)?;
        }
    }
    Ok(())
}

/// Whether the segments of places have numbers that a key can have.
pub fn have_keys(places: &[ChunkPlace]) -> bool
    ensures value { result ≡ have_keys places.now }
    ensures small { IsTrue result
        → All (λ place. reference_of place < segment_limit * offset_count) places.now }
{
    for place in places {
        if !has_key(place) {
            return false;
        }
    }
    true
}

/// Whether the segment of a place has such a number.
fn has_key(place: &ChunkPlace) -> bool
    ensures value { result ≡ nat_lt place.now.segment segment_limit }
    ensures small { IsTrue result → reference_of place.now < segment_limit * offset_count }
{
    let _offset = place.offset;
    place.segment < SEGMENT_LIMIT
}

/// The places ascending by their references.
pub fn sorted_places(places: Vec<ChunkPlace>) -> Result<Vec<ChunkPlace>, NoMemory>
    ensures same { IfOk result (λ sorted. IsPermutation places.items sorted.items) }
    ensures ascend { IfOk result (λ sorted. IsNonDecreasingBy reference_of sorted.items) }
{
    let mut sorted = places;
    sorted.sort_by_key(|place| reference_of(*place))?;
    Ok(sorted)
}

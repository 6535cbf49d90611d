//! Whether chunks follow one another in time, and whether their places ascend.
ghost use Rattle.std.specs.Prelude.{◌≡◌, ℕ, None, Some, MatchOption};
ghost use Rattle.base.specs.Firsts.{first_at};
ghost use Rattle.block_content.specs.ContentReading.{begins_after, follow, repeated_in, fitted};
ghost use Rattle.block_content.specs.StoredPlaces.{comes_behind, places_of, ascend};

use crate::places::place_number;
use index_parts::ChunkPlace;
use index_v2::LentSeries;

fn begins_after(before: Option<ChunkPlace>, chunk: &ChunkPlace) -> bool
    ensures { result ≡ begins_after before chunk.now }
{
    match before {
        None => true,
        Some(before) => before.max < chunk.min,
    }
}

/// Whether each chunk begins after the one before it ends.
fn follow(chunks: &[ChunkPlace]) -> bool
    ensures { result ≡ follow None chunks.now }
{
    let mut before = None;
    for chunk in chunks {
        if !begins_after(before, chunk) {
            return false;
        }
        before = Some(*chunk);
    }
    true
}

/// The first series whose chunks do not follow one another in time.
pub(crate) fn first_repeated(indexed: &[LentSeries<'_>]) -> Option<u32>
    ensures { MatchOption result (first_at repeated_in indexed.now ≡ None)
        (λ found. (place : ℕ) × (first_at repeated_in indexed.now ≡ Some (place, tt))
        × (found ≡ fitted place)) }
{
    let mut series = 0u32;
    for one in indexed {
        if !follow(one.chunks()) {
            return Some(series);
        }
        series = series.saturating_add(1);
    }
    None
}

/// Whether a place comes behind the one before it, by their numbers.
fn comes_behind(before: Option<u64>, number: u64) -> bool
    ensures { result ≡ comes_behind before number }
{
    match before {
        None => true,
        Some(before) => before < number,
    }
}

/// Whether each chunk of these series stands behind the one before it, so that no two stand at one place.
pub(crate) fn places_ascend(indexed: &[LentSeries<'_>]) -> bool
    ensures { result ≡ ascend None (places_of indexed.now) }
{
    let mut before = None;
    for one in indexed {
        for place in one.chunks() {
            let number = place_number(*place);
            if !comes_behind(before, number) {
                return false;
            }
            before = Some(number);
        }
    }
    true
}

//! The samples of a chunk that lie in the range that is asked for. The others are let go as soon as the chunk was tested, so that
//! a call keeps no more samples than it answers.
ghost use Rattle.std.specs.Prelude.{◌≡◌, ◌≤ℤ◌, slice_get, IsTrue, IfOk, IsSomeAnd};
ghost use Rattle.store_ranges.specs.Asking.{query_asked, block_asked};
ghost use Rattle.store_chunks.specs.ChunkReads.{in_range, chunk_samples_at};
ghost use Rattle.store_ranges.specs.Findings.{ReadsAs, ReadsBehind};

use crate::chunks::append_tested;
use base::NoMemory;
use index_parts::ChunkPlace;
use label_sets::{Sample, SampleList};
use store_ranges::Asked;

/// Whether a chunk at the first of these places has all its samples in the range.
fn lies_inside(asked: &Asked<'_>, places: &[ChunkPlace]) -> bool
    ensures { IsTrue result → IsSomeAnd (slice_get places.now 0)
        (λ place. (asked.now.low ≤ℤ place.min) × (place.max ≤ℤ asked.now.high)) }
{
    match places.first() {
        Some(place) => asked.low <= place.min && place.max <= asked.high,
        None => false,
    }
}

/// Those of the samples that lie in the range.
fn in_range(asked: &Asked<'_>, samples: Vec<Sample>) -> Vec<Sample>
    ensures { result.items ≡ in_range (query_asked asked.now) samples.items }
{
    let mut kept = samples;
    kept.retain(|sample| asked.low <= sample.time && sample.time <= asked.high);
    kept
}

/// Reads the samples in the range of the chunk at the front of these bytes, behind others. None
/// where it is not a chunk of each of these places. A chunk that may have others too is read by
/// itself first, so that there is never room for these among those that are kept.
pub(crate) fn append_chunk(
    asked: &Asked<'_>,
    places: &[ChunkPlace],
    samples: Vec<Sample>,
    bytes: &[u8],
) -> Result<Option<Vec<Sample>>, NoMemory>
    ensures { IfOk result
        (ReadsBehind (λ all. all.items) samples.items (chunk_samples_at
        (query_asked asked.now) (block_asked asked.now) places.now bytes.now)) }
{
    if lies_inside(asked, places) {
        return append_tested(asked, places, samples, bytes);
    }
    let whole = match append_tested(asked, places, Vec::new(asked.alloc), bytes)? {
        Some(whole) => whole,
        None => return Ok(None),
    };
    let cut = in_range(asked, whole);
    let mut all = samples;
    all.extend_from_slice(cut.as_slice())?;
    Ok(Some(all))
}

/// The samples in the range of the chunk at the front of these bytes. None where it is not a chunk
/// of each of these places.
pub(crate) fn chunk_samples(
    asked: &Asked<'_>,
    places: &[ChunkPlace],
    bytes: &[u8],
) -> Result<Option<SampleList>, NoMemory>
    ensures { IfOk result
        (ReadsAs (λ samples. samples) (chunk_samples_at
        (query_asked asked.now) (block_asked asked.now) places.now bytes.now)) }
{
    match append_chunk(asked, places, Vec::new(asked.alloc), bytes)? {
        Some(samples) => Ok(Some(SampleList::from_vec(samples))),
        None => Ok(None),
    }
}

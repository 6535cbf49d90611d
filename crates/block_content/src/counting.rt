//! Counting what a block holds, chunk by chunk and series by series. No samples are kept, and the data at a place is read once.
ghost use Rattle.std.specs.Prelude.{◌≡◌, ◌^◌, ◌-◌, min, length, sum_by, option_map, IfOk, OnOk};
ghost use Rattle.base.specs.Firsts.{or_else, first_at};
ghost use Rattle.base.specs.Lists.{joined};
ghost use Rattle.label_sets.specs.Counts.{sample_count};
ghost use Rattle.block_content.specs.CheckReading.{found_at, IsFirstFound};
ghost use Rattle.block_content.specs.ContentReading.{chunk_bytes, series_bytes, list_of, first_time, first_outside, MadeOfChunk, WalksChunks, WalksSeries};
ghost use Rattle.block_content.specs.Named.{counted};
ghost use Rattle.block_content.specs.StoredPlaces.{AreFound};

use crate::chunk_order::places_ascend;
use crate::chunk_reading::{refused_chunk, test_span};
use crate::places::{Places, find};
use crate::{CheckRefusal, ChunkCause};
use block_meta::Meta;
use index_parts::ChunkPlace;
use index_v2::LentSeries;
use std::alloc::Global;
use wire_bytes::Blob;

/// What was counted of a chunk or of a series.
#[derive(Clone, Copy)]
struct Counted {
    /// How many bytes of data there are.
    bytes: u64,
    samples: u64,
    /// The time of the first sample outside the block's times.
    outside: Option<i64>,
}

/// The time that was found, or else this one.
fn found_or_time(found: Option<i64>, time: Option<i64>) -> Option<i64>
    ensures { result ≡ or_else found time }
{
    match found {
        Some(found) => Some(found),
        None => time,
    }
}

/// Counts the samples of the chunk at a place.
fn count_one(
    alloc: Global,
    meta: &Meta,
    segments: &[Blob],
    place: ChunkPlace,
    places: &mut Places,
) -> Result<Counted, ChunkCause>
    requires { AreFound meta.now segments.now places.old }
    ensures counted { MadeOfChunk segments.now place
        (λ counted part. (counted.samples ≡ length part)
        × (counted.outside ≡ first_time meta.now part)) result }
    ensures bytes { IfOk result (λ counted. counted.bytes ≡ chunk_bytes segments.now place) }
    ensures kept { OnOk result (AreFound meta.now segments.now places.new) }
{
    let found = find(alloc, meta, segments, place, places)?;
    let count = test_span(found.span, &place)?;
    Ok(Counted {
        bytes: found.bytes,
        samples: u64::from(count),
        outside: found.outside,
    })
}

/// Counts the samples of the chunks of a series.
fn count_series(
    alloc: Global,
    meta: &Meta,
    segments: &[Blob],
    series: u32,
    chunks: &[ChunkPlace],
    places: &mut Places,
) -> Result<Counted, CheckRefusal>
    requires { AreFound meta.now segments.now places.old }
    ensures read { WalksChunks segments.now series chunks.now
        (λ counted parts. (counted.samples ≡ min (length (joined parts)) (2 ^ 64 - 1))
        × (counted.outside ≡ first_time meta.now (joined parts))) result }
    ensures bytes { IfOk result (λ one. one.bytes
        ≡ counted (sum_by (chunk_bytes segments.now) chunks.now)) }
    ensures kept { OnOk result (AreFound meta.now segments.now places.new) }
{
    let mut bytes = 0u64;
    let mut samples = 0u64;
    let mut outside = None;
    let mut chunk = 0u32;
    for place in chunks {
        let counted = match count_one(alloc, meta, segments, *place, places) {
            Ok(counted) => counted,
            Err(cause) => return Err(refused_chunk(series, chunk, cause)),
        };
        bytes = bytes.saturating_add(counted.bytes);
        samples = samples.saturating_add(counted.samples);
        outside = found_or_time(outside, counted.outside);
        chunk = chunk.saturating_add(1);
    }
    Ok(Counted {
        bytes,
        samples,
        outside,
    })
}

/// What was counted of a block: its samples, and the series and the time of the first sample outside its times.
#[derive(Clone, Copy)]
pub(crate) struct Counts {
    /// How many bytes of data the chunks have, each counted as often as it is named.
    pub(crate) bytes: u64,
    pub(crate) samples: u64,
    pub(crate) outside: Option<(u32, i64)>,
}

/// The series and the time that were found, or those of the time in this series.
fn found_or_this(found: Option<(u32, i64)>, series: u32, time: Option<i64>) -> Option<(u32, i64)>
    ensures { result ≡ or_else found (option_map (λ t. (series, t)) time) }
{
    match (found, time) {
        (Some(found), _) => Some(found),
        (None, Some(time)) => Some((series, time)),
        (None, None) => None,
    }
}

/// Counts what the chunks of a block hold. Where each stands behind the one before it, no two stand at one place, and nothing is
/// kept of any.
pub(crate) fn count_all(
    alloc: Global,
    meta: &Meta,
    segments: &[Blob],
    indexed: &[LentSeries<'_>],
) -> Result<Counts, CheckRefusal>
    ensures read { WalksSeries segments.now indexed.now
        (λ counts parts. (counts.samples ≡ sample_count (list_of indexed.now parts))
        × IsFirstFound (first_at (first_outside meta.now) (list_of indexed.now parts))
        counts.outside) result }
    ensures bytes { IfOk result (λ counts. counts.bytes
        ≡ counted (sum_by (series_bytes segments.now) indexed.now)) }
{
    let mut places = Places::new(alloc, !places_ascend(indexed));
    let mut bytes = 0u64;
    let mut samples = 0u64;
    let mut outside = None;
    let mut series = 0u32;
    for one in indexed {
        let counted = count_series(alloc, meta, segments, series, one.chunks(), &mut places)?;
        bytes = bytes.saturating_add(counted.bytes);
        samples = samples.saturating_add(counted.samples);
        outside = found_or_this(outside, series, counted.outside);
        series = series.saturating_add(1);
    }
    Ok(Counts {
        bytes,
        samples,
        outside,
    })
}

/// Refuses what was found.
pub(crate) fn test_found(
    outside: Option<(u32, i64)>,
    repeated: Option<u32>,
) -> Result<(), CheckRefusal>
    ensures { result ≡ found_at outside repeated }
{
    if let Some((series, time)) = outside {
        return Err(CheckRefusal::OutsideRange { series, time });
    }
    match repeated {
        Some(series) => Err(CheckRefusal::Repeated(series)),
        None => Ok(()),
    }
}

//! The samples of one chunk.
ghost use Rattle.std.specs.Prelude.{◌≡◌, ◌+◌, ◌*◌, ◌≤◌, ◌&&◌, length, sum_by, option_copied, IfOk};
ghost use Rattle.std.specs.List.{AllByRecursion};
ghost use Rattle.std.specs.Ordering.{int_eq};
ghost use Rattle.base.specs.Grammar.{IsBytes};
ghost use Rattle.xor_chunks.specs.Data.{with_samples};
ghost use Rattle.base.specs.Reading.{Answers, Gives};
ghost use Rattle.block_content.specs.Named.{counted};
ghost use Rattle.block_content.specs.ContentReading.{data_of, is_time, have_times_of, part_at, samples_at, chunk_at, chunk_bytes, span_at, refused_cause};

use crate::{CheckRefusal, ChunkCause};
use base::members_behind;
use chunk_files::{ChunkRefusal, read_chunk};
use index_parts::ChunkPlace;
use label_sets::Sample;
use wire_bytes::Blob;
use xor_chunks::{SampleSpan, XorRefusal, append_stored};

fn length_of(segment: &[u8]) -> u64
    ensures value { result ≡ length segment.now }
    ensures bytes { IsBytes segment.now }
{
    segment.len() as u64
}

/// How many bytes segments have together. That they are bytes is what contracts learn of it.
pub(crate) fn segment_bytes(segments: &[Blob]) -> u64
    ensures value { result ≡ counted (sum_by length segments.now) }
    ensures bytes { AllByRecursion IsBytes segments.now }
{
    let mut bytes = 0u64;
    for segment in segments {
        bytes = bytes.saturating_add(length_of(segment.bytes()));
    }
    bytes
}

/// The XOR data of the chunk at a place.
pub(crate) fn data_of<'a>(segments: &'a [Blob], place: ChunkPlace) -> Result<&'a [u8], ChunkRefusal>
    ensures { Answers (λ content. content.now) result (data_of segments.now place) }
{
    match segments.get(place.segment as usize) {
        Some(segment) => read_chunk(segment.bytes(), u64::from(place.offset)),
        None => Err(ChunkRefusal::Short),
    }
}

/// Whether there is a sample, and it is at this time.
fn is_at(sample: Option<&Sample>, time: i64) -> bool
    ensures { result ≡ is_time (option_copied sample.entry) time }
{
    match sample {
        Some(sample) => sample.time == time,
        None => false,
    }
}

/// Whether the first and the last sample are at the times that the place tells. Of no samples it is not so.
pub fn have_times_of(place: &ChunkPlace, samples: &[Sample]) -> bool
    ensures { result ≡ have_times_of place.now samples.now }
{
    is_at(samples.first(), place.min) && is_at(samples.last(), place.max)
}

/// Tests whether samples are those of a chunk at a place.
fn test_part(part: &[Sample], place: &ChunkPlace) -> Result<(), ChunkCause>
    ensures { Answers (λ x. x) result (part_at place.now part.now) }
{
    if part.is_empty() {
        return Err(ChunkCause::NoSamples);
    }
    if !have_times_of(place, part) {
        return Err(ChunkCause::TimesDiffer);
    }
    Ok(())
}

/// Reads the samples that a chunk's data stands for, behind others.
fn append_samples(
    samples: Vec<Sample>,
    content: &[u8],
    place: &ChunkPlace,
) -> Result<Vec<Sample>, ChunkCause>
    ensures exact { Gives (ChunkCause.Data XorRefusal.NoMemory)
        (λ all. all.items) result
        (with_samples samples.items (samples_at place.now content.now)) }
    ensures few { IfOk result
        (λ all. length all.items ≤ length samples.items + 8 * length content.now) }
{
    let before = samples.len();
    let all = append_stored(samples, content)?;
    test_part(members_behind(all.as_slice(), before), place)?;
    Ok(all)
}

/// Whether a span has the times that the place tells.
fn has_times_of(place: &ChunkPlace, span: &SampleSpan) -> bool
    ensures { result ≡ (int_eq span.now.first place.now.min && int_eq span.now.last place.now.max) }
{
    span.first == place.min && span.last == place.max
}

/// Tests whether the span of samples is that of a chunk at a place, and gives how many they are.
pub(crate) fn test_span(span: Option<SampleSpan>, place: &ChunkPlace) -> Result<u16, ChunkCause>
    ensures { Answers (λ count. count) result (span_at place.now span) }
{
    match span {
        Some(span) if has_times_of(place, &span) => Ok(span.count),
        Some(_) => Err(ChunkCause::TimesDiffer),
        None => Err(ChunkCause::NoSamples),
    }
}

/// Reads the samples of the chunk at a place, behind others.
pub(crate) fn append_chunk(
    samples: Vec<Sample>,
    segments: &[Blob],
    place: ChunkPlace,
) -> Result<Vec<Sample>, ChunkCause>
    ensures exact { Gives (ChunkCause.Data XorRefusal.NoMemory)
        (λ all. all.items) result
        (with_samples samples.items (chunk_at segments.now place)) }
    ensures few { IfOk result (λ all. length all.items
        ≤ length samples.items + 8 * chunk_bytes segments.now place) }
{
    let content = data_of(segments, place)?;
    append_samples(samples, content, &place)
}

/// A chunk's cause, as the block's refusal.
pub(crate) fn refused_chunk(series: u32, chunk: u32, cause: ChunkCause) -> CheckRefusal
    ensures { result ≡ refused_cause series chunk cause }
{
    match cause {
        ChunkCause::Data(XorRefusal::NoMemory) => CheckRefusal::NoMemory,
        cause => CheckRefusal::BadChunk {
            series,
            chunk,
            cause,
        },
    }
}

//! What is found at the places where a block's chunks stand. Many chunks may stand at one place: its data is read once.
ghost use Rattle.std.specs.Prelude.{◌≡◌, ◌+◌, ◌*◌, ◌^◌, ◌<◌, ℕ, List, FitsSigned, IfOk, IfErr, IfSome, OnOk};
ghost use Rattle.std.specs.BTreeMap.{get};
ghost use Rattle.std.specs.Int.{w64};
ghost use Rattle.std.specs.Ordering.{nat_cmp};
ghost use Rattle.label_sets.specs.declared.sample.Sample.{Sample};
ghost use Rattle.label_sets.specs.Times.{is_within};
ghost use Rattle.xor_chunks.specs.Grammar.{IsText};
ghost use Rattle.xor_chunks.specs.Spans.{span_of};
ghost use Rattle.xor_chunks.specs.Widths.{stored_filling};
ghost use Rattle.block_content.specs.ContentReading.{first_time};
ghost use Rattle.block_content.specs.StoredPlaces.{place_number, lies_within, AreFound, Finds, IsKept};

use crate::ChunkCause;
use crate::chunk_reading::data_of;
use base::NoMemory;
use block_meta::Meta;
use index_parts::ChunkPlace;
use label_sets::{Sample, is_within};
use std::alloc::Global;
use std::collections::BTreeMap;
use wire_bytes::Blob;
use xor_chunks::{SampleSpan, XorRefusal, decode_stored, span_stored};

/// What was found of the data at a place, of which no sample is kept.
#[derive(Clone, Copy)]
pub(crate) struct Found {
    /// How many bytes the data has.
    pub(crate) bytes: u64,
    pub(crate) span: Option<SampleSpan>,
    /// The time of the first sample outside the block's times.
    pub(crate) outside: Option<i64>,
}

/// What was found at places, by their numbers.
#[derive(Drop)]
pub(crate) struct Places {
    found: BTreeMap<u64, Found>,
    /// Whether what is found is kept, since chunks may stand at one place.
    keeps: bool,
}

/// Whether a sample lies within the block's times.
fn is_of_block(meta: &Meta, sample: &Sample) -> bool
    ensures { result ≡ is_within meta.now.min_time meta.now.max_time sample.now }
{
    is_within(sample, meta.min_time, meta.max_time)
}

fn time_of(sample: &Sample) -> i64
    ensures value { result ≡ sample.now.time }
    ensures fits { FitsSigned w64 result }
{
    sample.time
}

/// The time of the first sample outside the block's times.
pub(crate) fn first_time(meta: &Meta, samples: &[Sample]) -> Option<i64>
    ensures value { result ≡ first_time meta.now samples.now }
    ensures fits { IfSome result (λ time. FitsSigned w64 time) }
{
    for sample in samples {
        if !is_of_block(meta, sample) {
            return Some(time_of(sample));
        }
    }
    None
}

/// The number of a place, which no other place has.
pub(crate) fn place_number(place: ChunkPlace) -> u64
    ensures number { result ≡ place_number place }
    ensures fits { place.offset < 2 ^ 32 }
{
    u64::from(place.segment) * 0x1_0000_0000 + u64::from(place.offset)
}

/// Whether the span of samples lies within the block's times.
fn lies_within(meta: &Meta, span: &SampleSpan) -> bool
    ensures { result ≡ lies_within meta.now span.now }
{
    meta.min_time <= span.first && span.last < meta.max_time
}

/// The time of the first sample outside the block's times, of data that was read before.
fn time_in(alloc: Global, meta: &Meta, content: &[u8]) -> Result<Option<i64>, ChunkCause>
    requires { (samples : List Sample) × IsText stored_filling content.now samples }
    ensures time { IfOk result (λ time. (samples : List Sample)
        → IsText stored_filling content.now samples → time ≡ first_time meta.now samples) }
    ensures refused { IfErr result (λ cause. cause ≡ ChunkCause.Data XorRefusal.NoMemory) }
{
    let samples = decode_stored(alloc, content)?;
    Ok(first_time(meta, samples.members()))
}

/// The time of the first sample outside the block's times, of samples of which this is the span. They are kept, for as long as
/// this takes, only where it does not lie within the block's times.
fn time_outside(
    alloc: Global,
    meta: &Meta,
    content: &[u8],
    span: Option<SampleSpan>,
) -> Result<Option<i64>, ChunkCause>
    requires { (samples : List Sample) × IsText stored_filling content.now samples
        × (span ≡ span_of samples) }
    ensures time { IfOk result (λ time. (samples : List Sample)
        → IsText stored_filling content.now samples → time ≡ first_time meta.now samples) }
    ensures refused { IfErr result (λ cause. cause ≡ ChunkCause.Data XorRefusal.NoMemory) }
{
    let Some(span) = span else {
        return Ok(None);
    };
    if lies_within(meta, &span) {
        return Ok(None);
    }
    time_in(alloc, meta, content)
}

/// Reads the data at a place.
fn read_place(
    alloc: Global,
    meta: &Meta,
    segments: &[Blob],
    place: ChunkPlace,
) -> Result<Found, ChunkCause>
    ensures { Finds meta.now segments.now place result }
{
    let content = data_of(segments, place)?;
    let span = span_stored(content)?;
    let outside = time_outside(alloc, meta, content, span)?;
    Ok(Found {
        bytes: content.len() as u64,
        span,
        outside,
    })
}

impl Places {
    /// Nothing is found yet.
    pub(crate) fn new(alloc: Global, keeps: bool) -> Places
        ensures { (meta : Meta) (segments : List (List ℕ)) → AreFound meta segments result }
    {
        Places {
            found: BTreeMap::new(alloc),
            keeps,
        }
    }
}

/// What was kept of a place.
fn kept(places: &Places, place: ChunkPlace) -> Option<Found>
    ensures { result ≡ get nat_cmp places.now.found (place_number place) }
{
    places.found.get(&place_number(place)).copied()
}

/// Keeps what was found at a place.
fn keep(places: &mut Places, place: ChunkPlace, found: Found) -> Result<(), NoMemory>
    ensures { OnOk result (IsKept places.old places.new place found) }
{
    places.found.insert(place_number(place), found)?;
    Ok(())
}

/// What is found at a place, which is read unless what was found there is kept.
pub(crate) fn find(
    alloc: Global,
    meta: &Meta,
    segments: &[Blob],
    place: ChunkPlace,
    places: &mut Places,
) -> Result<Found, ChunkCause>
    requires { AreFound meta.now segments.now places.old }
    ensures found { Finds meta.now segments.now place result }
    ensures kept { OnOk result (AreFound meta.now segments.now places.new) }
{
    if !places.keeps {
        return read_place(alloc, meta, segments, place);
    }
    if let Some(found) = kept(places, place) {
        return Ok(found);
    }
    let found = read_place(alloc, meta, segments, place)?;
    keep(places, place, found)?;
    Ok(found)
}

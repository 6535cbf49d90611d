//! A series of an index as it stands: its labels by symbol numbers, and each chunk's times and place, told from those
//! of the chunk before it. No symbol is looked up here, as a gateway has the symbols apart from the bytes of its
//! series.

ghost use Rattle.std.specs.Prelude.{◌≡◌, ◌⊎◌, ◌≤◌, ◌*◌, ◌+◌, ◌<◌, ◌^◌, List, ℕ, ℤ, length, IfOk, Ok, Err, Some, MatchResult};
ghost use Rattle.base.specs.Reading.{Answers, Gives};
ghost use Rattle.base.specs.Grammar.{IsBytes};
ghost use Rattle.wire_bytes.specs.Position.{Position, left};
ghost use Rattle.index_parts.specs.declared.raw_series.RawSeries.{RawSeries};
ghost use Rattle.index_parts.specs.SeriesEntry.{IsSeries, reference_of, offset_count};
ghost use Rattle.index_parts.specs.SeriesReading.{labels_begin_at, symbol_number_at, label_at, labels_at, later_at, moved_at, begin_at, reference_at, chunk_of, chunk_at, chunks_at, series_at};
ghost use Rattle.index_parts.specs.ListReading.{turns_at};
ghost use Rattle.index_parts.specs.Moves.{MovesOn, MovesOnTo};

use crate::fields::{next_uvarint, next_varint};
use crate::sections::entry_of;
use crate::{ChunkList, ChunkPlace, PartRefusal, RawLabel, RawSeries, SymbolNumber};
use base::List;
use std::alloc::Global;
use wire_bytes::Cursor;

/// How many places in a segment file a reference can tell.
pub const OFFSET_COUNT: u64 = 1 << 32;

/// Stands before the labels of the series at a place, and tells how many they are. The sum over the series is tested.
#[inline(always)]
#[tactic(auto, unfolding(crate::specs::SeriesReading::labels_begin_at))]
pub fn before_labels(index: &[u8], at: u64) -> Result<(u64, Cursor<'_>), PartRefusal>
    ensures { Answers (λ x. (x.0, x.1)) result (labels_begin_at index.now at) }
{
    let mut content = entry_of(index, at)?;
    let count = next_uvarint(&mut content)?;
    Ok((count, content))
}

/// The next symbol number.
#[inline(always)]
#[tactic(auto, unfolding(crate::specs::SeriesReading::symbol_number_at))]
fn next_number(cursor: &mut Cursor<'_>) -> Result<SymbolNumber, PartRefusal>
    ensures { MovesOn (λ n. n) cursor.new result (symbol_number_at cursor.old) }
{
    let place = cursor.place() as u64;
    let number = next_uvarint(cursor)?;
    Ok(SymbolNumber { number, place })
}

/// The next label, and what follows it.
#[inline(always)]
#[tactic(auto, unfolding(crate::specs::SeriesReading::label_at))]
pub fn next_label(mut cursor: Cursor<'_>) -> Result<(RawLabel, Cursor<'_>), PartRefusal>
    ensures { Answers (λ x. (x.0, x.1)) result (label_at cursor.entry) }
{
    let name = next_number(&mut cursor)?;
    let value = next_number(&mut cursor)?;
    Ok((RawLabel { name, value }, cursor))
}

/// Reads the symbol numbers of `count` labels, and what follows them.
fn labels_of<'a>(
    alloc: Global,
    count: u64,
    mut cursor: Cursor<'a>,
) -> Result<(Vec<u64>, Vec<u64>, Cursor<'a>), PartRefusal>
    ensures { Gives PartRefusal.NoMemory (λ x. ((x.0.items, x.1.items), x.2)) result
        (labels_at count cursor.entry) }
{
    let mut names = Vec::new(alloc);
    let mut values = Vec::new(alloc);
    for _ in 0..count {
        let (label, rest) = next_label(cursor)?;
        names.push(label.name.number)?;
        values.push(label.value.number)?;
        cursor = rest;
    }
    Ok((names, values, cursor))
}

/// The time that comes as long after another as the next number says.
#[inline(always)]
#[tactic(auto, using(crate::proofs::Ranges::signed_tests), unfolding(crate::specs::SeriesReading::later_at))]
fn time_after(cursor: &mut Cursor<'_>, time: i64) -> Result<i64, PartRefusal>
    ensures { MovesOn (λ t. t) cursor.new result (later_at time cursor.old) }
{
    let place = cursor.place() as u64;
    let by = next_uvarint(cursor)?;
    match time.checked_add_unsigned(by) {
        Some(time) => Ok(time),
        None => Err(PartRefusal::Overlong(place)),
    }
}

/// The reference that is as far from another as the next number says.
#[inline(always)]
#[tactic(auto, using(crate::proofs::Ranges::unsigned_tests), unfolding(crate::specs::SeriesReading::moved_at))]
fn reference_after(cursor: &mut Cursor<'_>, reference: u64) -> Result<u64, PartRefusal>
    ensures { MovesOn (λ r. r) cursor.new result (moved_at reference cursor.old) }
{
    let place = cursor.place() as u64;
    let by = next_varint(cursor)?;
    match reference.checked_add_signed(by) {
        Some(reference) => Ok(reference),
        None => Err(PartRefusal::Overlong(place)),
    }
}

/// The reference of a chunk.
#[inline(always)]
pub fn reference_of(chunk: ChunkPlace) -> u64
    ensures value { result ≡ reference_of chunk }
    ensures fits { (chunk.segment < 2 ^ 32) × (chunk.offset < offset_count) }
{
    u64::from(chunk.segment) * OFFSET_COUNT + u64::from(chunk.offset)
}

#[inline(always)]
fn chunk_of(min: i64, max: i64, reference: u64) -> ChunkPlace
    ensures { result ≡ chunk_of min max reference }
{
    ChunkPlace {
        min,
        max,
        segment: (reference / OFFSET_COUNT) as u32,
        offset: (reference % OFFSET_COUNT) as u32,
    }
}

/// When the next chunk begins.
#[inline(always)]
#[tactic(auto, unfolding(crate::specs::SeriesReading::begin_at))]
fn next_begin(cursor: &mut Cursor<'_>, before: Option<ChunkPlace>) -> Result<i64, PartRefusal>
    ensures { MovesOn (λ t. t) cursor.new result (begin_at before cursor.old) }
{
    match before {
        None => next_varint(cursor),
        Some(chunk) => time_after(cursor, chunk.max),
    }
}

/// Where the next chunk stands.
#[inline(always)]
#[tactic(auto, unfolding(crate::specs::SeriesReading::reference_at))]
fn next_reference(cursor: &mut Cursor<'_>, before: Option<ChunkPlace>) -> Result<u64, PartRefusal>
    ensures { MovesOn (λ r. r) cursor.new result (reference_at before cursor.old) }
{
    match before {
        None => next_uvarint(cursor),
        Some(chunk) => reference_after(cursor, reference_of(chunk)),
    }
}

/// The next chunk, which is told from the one before it.
#[inline(always)]
#[tactic(auto, unfolding(crate::specs::SeriesReading::chunk_at))]
fn next_chunk(
    cursor: &mut Cursor<'_>,
    before: Option<ChunkPlace>,
) -> Result<ChunkPlace, PartRefusal>
    ensures { MovesOnTo (λ chunk. chunk) cursor.new result (chunk_at (before, cursor.old)) }
{
    let min = next_begin(cursor, before)?;
    let max = time_after(cursor, min)?;
    let reference = next_reference(cursor, before)?;
    Ok(chunk_of(min, max, reference))
}

/// Reads the places of `count` chunks in place of those that the list has.
#[inline(always)]
fn chunks_of(
    count: u64,
    mut cursor: Cursor<'_>,
    mut chunks: Vec<ChunkPlace>,
) -> Result<Vec<ChunkPlace>, PartRefusal>
    ensures { Gives PartRefusal.NoMemory (λ chunks. chunks.items) result
        (turns_at chunk_at count cursor.entry) }
{
    chunks.clear();
    if count == 0 {
        return Ok(chunks);
    }
    let mut last = next_chunk(&mut cursor, None)?;
    chunks.push(last)?;
    for _ in 1..count {
        last = next_chunk(&mut cursor, Some(last))?;
        chunks.push(last)?;
    }
    Ok(chunks)
}

/// Reads the chunks behind the labels of a series into the room of a list, of which nothing is kept but its memory: where it
/// has room enough, none is taken. Where nothing is read the room is given up.
#[inline(always)]
pub fn chunks_behind(cursor: Cursor<'_>, room: ChunkList) -> Result<ChunkList, PartRefusal>
    ensures exact { Gives PartRefusal.NoMemory (λ chunks. chunks) result (chunks_at cursor.entry) }
    ensures few { IfOk result (λ chunks. 3 * length chunks ≤ length (left cursor.entry)) }
{
    counted_chunks(cursor, room)
}

#[inline(always)]
#[tactic(auto, unfolding(crate::specs::SeriesReading::chunks_at))]
fn counted_chunks(mut cursor: Cursor<'_>, room: ChunkList) -> Result<ChunkList, PartRefusal>
    ensures { Gives PartRefusal.NoMemory (λ chunks. chunks) result (chunks_at cursor.entry) }
{
    let count = next_uvarint(&mut cursor)?;
    let chunks = chunks_of(count, cursor, room.into_vec())?;
    Ok(List::from_vec(chunks))
}

#[tactic(auto, unfolding(crate::specs::SeriesReading::series_at))]
fn series_of(alloc: Global, index: &[u8], at: u64) -> Result<RawSeries, PartRefusal>
    ensures exact { Gives PartRefusal.NoMemory (λ series. series) result (series_at index.now at) }
    ensures bytes { IsBytes index.now }
{
    let (count, labels) = before_labels(index, at)?;
    let (names, values, labels_end) = labels_of(alloc, count, labels)?;
    let chunks = counted_chunks(labels_end, List::new(alloc))?;
    Ok(RawSeries {
        names: List::from_vec(names),
        values: List::from_vec(values),
        chunks,
    })
}

/// Reads the series at a place.
pub fn read_series(alloc: Global, index: &[u8], at: u64) -> Result<RawSeries, PartRefusal>
    // What is read is what stands there, and what stands there is read.
    ensures found { IfOk result (λ series. IsSeries index.now at series) }
    ensures only { (series : RawSeries) → IsSeries index.now at series
        → (result ≡ Ok series) ⊎ (result ≡ Err PartRefusal.NoMemory) }

    // The first refusal.
    ensures exact { Gives PartRefusal.NoMemory (λ series. series) result (series_at index.now at) }
    ensures few { IfOk result (λ series.
        length series.names + length series.values + 3 * length series.chunks ≤ length index.now) }
{
    series_of(alloc, index, at)
}

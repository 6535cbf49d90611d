//! Chunks that are read behind those of their series.
ghost use Rattle.std.specs.Prelude.{◌≡◌, [], ◌∷◌, ◌++◌, IfOk};
ghost use Rattle.store_ranges.specs.Asking.{query_asked, block_asked};
ghost use Rattle.store_chunks.specs.ChunkReads.{read, chunk_samples_at};
ghost use Rattle.store_chunks.specs.ChunksRead.{row_reads, reads_of};
ghost use Rattle.store_chunks.specs.Glimpsed.{ReadsOn};

use crate::chunk_cut::append_chunk;
use crate::chunk_row::{ChunkRow, RowChunk};
use crate::places::meets;
use base::NoMemory;
use index_parts::{ChunkPlace, IndexSeries, reference_of};
use label_sets::SampleList;
use store_ranges::Asked;
use xor_chunks::USUAL_COUNT;

/// For how many samples there is room in a new row at most.
const MOST_ROOM: usize = 65_536;

/// Reads the samples in the range of the chunk at the front of these bytes, behind other chunks.
/// None where it is not a chunk of each of these places.
pub fn read_behind(
    asked: &Asked<'_>,
    series: &[IndexSeries],
    places: &[ChunkPlace],
    rows: Vec<ChunkRow>,
    reference: u64,
    bytes: &[u8],
) -> Result<Option<Vec<ChunkRow>>, NoMemory>
    ensures { IfOk result
        (ReadsOn (λ rows. reads_of rows.items) (reads_of rows.items) reference (chunk_samples_at
        (query_asked asked.now) (block_asked asked.now) places.now bytes.now)) }
{
    let mut all = rows;
    let row = row_for(asked, series, &mut all, reference)?;
    match row_with(asked, places, row, reference, bytes)? {
        Some(row) => {
            all.push(row)?;
            Ok(Some(all))
        }
        None => Ok(None),
    }
}

/// Takes the last row, if the chunk at a reference stands in it, or begins another one. No row but
/// the last has spare room.
fn row_for(
    asked: &Asked<'_>,
    series: &[IndexSeries],
    rows: &mut Vec<ChunkRow>,
    reference: u64,
) -> Result<ChunkRow, NoMemory>
    ensures { IfOk result
        (λ row. reads_of rows.old.items ≡ reads_of rows.new.items ++ row_reads row) }
{
    let Some(last) = rows.pop() else {
        return new_row(asked, series, reference);
    };
    if reference < last.until {
        return Ok(last);
    }
    rows.push(without_room(last))?;
    new_row(asked, series, reference)
}

/// A row without its spare room.
fn without_room(row: ChunkRow) -> ChunkRow
    ensures { row_reads result ≡ row_reads row }
{
    let ChunkRow {
        chunks,
        mut samples,
        until,
    } = row;
    samples.shrink_to_fit();
    ChunkRow {
        chunks,
        samples,
        until,
    }
}

/// A row of no chunk, with room for those that meet the range of the series of the chunk at a
/// reference.
fn new_row(asked: &Asked<'_>, series: &[IndexSeries], reference: u64) -> Result<ChunkRow, NoMemory>
    ensures { IfOk result (λ row. row_reads row ≡ []) }
{
    let behind = series.partition_point(|one| first_reference(one) <= reference);
    let until = match series.get(behind) {
        Some(next) => first_reference(next),
        None => u64::MAX,
    };
    let count = match series.get(behind.saturating_sub(1)) {
        Some(own) => count_met(asked, own.chunks.members()),
        None => 0,
    };
    let room = count.saturating_mul(USUAL_COUNT).min(MOST_ROOM);
    Ok(ChunkRow {
        chunks: Vec::with_capacity(asked.alloc, count)?,
        samples: Vec::with_capacity(asked.alloc, room)?,
        until,
    })
}

/// How many of these chunks meet the range.
fn count_met(asked: &Asked<'_>, chunks: &[ChunkPlace]) -> usize {
    let mut count = 0usize;
    for place in chunks {
        if meets(asked, place) {
            count = count.saturating_add(1);
        }
    }
    count
}

/// The reference of the first chunk of a series.
fn first_reference(series: &IndexSeries) -> u64 {
    match series.chunks.members().first() {
        Some(place) => reference_of(*place),
        None => 0,
    }
}

/// Reads the samples in the range of the chunk at the front of these bytes, behind those of a row.
fn row_with(
    asked: &Asked<'_>,
    places: &[ChunkPlace],
    row: ChunkRow,
    reference: u64,
    bytes: &[u8],
) -> Result<Option<ChunkRow>, NoMemory>
    ensures { IfOk result
        (ReadsOn row_reads (row_reads row) reference (chunk_samples_at
        (query_asked asked.now) (block_asked asked.now) places.now bytes.now)) }
{
    let ChunkRow {
        mut chunks,
        samples,
        until,
    } = row;
    let before = samples.len();
    let samples = match append_chunk(asked, places, samples, bytes)? {
        Some(samples) => samples,
        None => return Ok(None),
    };
    let count = samples.len().saturating_sub(before);
    chunks.push(RowChunk { reference, count })?;
    Ok(Some(ChunkRow {
        chunks,
        samples,
        until,
    }))
}

/// A row of one chunk, with these samples. No chunk follows it there.
pub fn row_of_one(reference: u64, samples: SampleList) -> Result<ChunkRow, NoMemory>
    ensures { IfOk result (λ row. row_reads row ≡ read reference samples ∷ []) }
{
    let samples = samples.into_vec();
    let count = samples.len();
    let mut chunks = Vec::new(*samples.allocator());
    chunks.push(RowChunk { reference, count })?;
    Ok(ChunkRow {
        chunks,
        samples,
        until: 0,
    })
}

//! The samples that are asked for, by the rows in which their chunks were read. A row has only the samples in the range.
ghost use Rattle.std.specs.Prelude.{◌≡◌, ◌∷◌, [], ◌++◌, List, map, length, not, IfOk, OnOk, IfSome, IsTrue};
ghost use Rattle.std.specs.List.{filter, flat_map, list_all};
ghost use Rattle.std.specs.List.Sorted.{IsStrictlyIncreasing};
ghost use Rattle.label_sets.specs.Finals.{final_of};
ghost use Rattle.label_sets.specs.Triples.{triples_of};
ghost use Rattle.index_parts.specs.SeriesEntry.{reference_of};
ghost use Rattle.store_ranges.specs.ChunkRanges.{meets};
ghost use Rattle.store_chunks.specs.Taken.{shown};
ghost use Rattle.store_ranges.specs.Asking.{query_asked, block_asked};
ghost use Rattle.store_chunks.specs.ChunkReads.{read};
ghost use Rattle.store_chunks.specs.RowCounts.{counted};
ghost use Rattle.store_chunks.specs.ChunksRead.{reads_from, row_reads, reads_of, reads_apart, references_in};
ghost use Rattle.store_chunks.specs.RowsFit.{references_taken, row_names, Begins, HaveRows, row_begun};
ghost use Rattle.store_chunks.specs.declared.chunk_row.ChunkRow.{ChunkRow};

use crate::chunk_row::{ChunkRow, RowChunk};
use crate::places::meets;
use crate::shown::{ChunkRead, shown_apart};
use base::NoMemory;
use index_parts::{ChunkPlace, IndexSeries, reference_of};
use label_sets::{Sample, SampleList, Series, SeriesList, final_labels};
use std::alloc::Global;
use std::collections::VecDeque;
use store_ranges::Asked;

/// The samples of these series that were read, each under its final labels. Where each series has
/// its row, it keeps the samples of that row; else each chunk is copied first.
pub fn all_shown(
    asked: &Asked<'_>,
    series: &[IndexSeries],
    found: Vec<ChunkRow>,
) -> Result<SeriesList, NoMemory>
    ensures { IsStrictlyIncreasing (references_in found.items)
        → IfOk result (λ made. triples_of made
        ≡ flat_map (shown (query_asked asked.now) (block_asked asked.now)
        (reads_of found.items)) series.now) }
{
    if have_rows(asked, series, &found) {
        return rows_shown(asked, series, VecDeque::from(found));
    }
    let apart = chunks_apart(asked.alloc, &found)?;
    drop(found);
    shown_apart(asked, series, &apart)
}

/// Whether each series that has chunks in the range has its row, in the order of the series.
fn have_rows(asked: &Asked<'_>, series: &[IndexSeries], found: &[ChunkRow]) -> bool
    ensures { IsTrue result → HaveRows (query_asked asked.now) series.now found.now }
{
    let mut left = found;
    for one in series {
        match behind_row(asked, one, left) {
            Some(others) => left = others,
            None => return false,
        }
    }
    true
}

/// The rows behind that of a series. None where the first row is not that of the series.
fn behind_row<'a>(
    asked: &Asked<'_>,
    series: &IndexSeries,
    rows: &'a [ChunkRow],
) -> Option<&'a [ChunkRow]>
    ensures { IfSome result (λ others. Begins
        (references_taken (query_asked asked.now) series.now) rows.now others.now) }
{
    let chunks = series.chunks.members();
    if takes_none(asked, chunks) {
        return Some(rows);
    }
    let [row, others @ ..] = rows else {
        return None;
    };
    if are_chunks(asked, chunks, row.chunks.as_slice()) {
        Some(others)
    } else {
        None
    }
}

/// Whether the chunks of a row are those of these places that meet the range, in their order.
fn are_chunks(asked: &Asked<'_>, places: &[ChunkPlace], row: &[RowChunk]) -> bool
    ensures { IsTrue result
        → map reference_of (filter (meets asked.now.low asked.now.high) places.now)
        ≡ row_names row.now }
{
    let mut left = row;
    for place in places {
        match behind_place(asked, place, left) {
            Some(others) => left = others,
            None => return false,
        }
    }
    left.is_empty()
}

/// The chunks behind that of a place, if it meets the range.
fn behind_place<'a>(
    asked: &Asked<'_>,
    place: &ChunkPlace,
    row: &'a [RowChunk],
) -> Option<&'a [RowChunk]>
    ensures { IfSome result (λ others. row_names row.now
        ≡ map reference_of (filter (meets asked.now.low asked.now.high) (place.now ∷ []))
        ++ row_names others.now) }
{
    if !meets(asked, place) {
        return Some(row);
    }
    let [one, others @ ..] = row else {
        return None;
    };
    if one.reference == reference_of(*place) {
        Some(others)
    } else {
        None
    }
}

/// The samples of these series, of which each has its row.
fn rows_shown(
    asked: &Asked<'_>,
    series: &[IndexSeries],
    rows: VecDeque<ChunkRow>,
) -> Result<SeriesList, NoMemory>
    requires { HaveRows (query_asked asked.now) series.now rows.items }
    ensures { IsStrictlyIncreasing (references_in rows.items)
        → IfOk result (λ made. triples_of made
        ≡ flat_map (shown (query_asked asked.now) (block_asked asked.now)
        (reads_of rows.items)) series.now) }
{
    let mut left = rows;
    let mut made = Vec::new(asked.alloc);
    for one in series {
        let samples = first_row(asked, one, &mut left);
        made.push(series_of(asked, one, samples)?)?;
    }
    Ok(SeriesList::from_vec(made))
}

/// Takes the samples of the row of a series.
fn first_row(asked: &Asked<'_>, series: &IndexSeries, left: &mut VecDeque<ChunkRow>) -> Vec<Sample>
    ensures { (others : List ChunkRow)
        → Begins (references_taken (query_asked asked.now) series.now) left.old.items others
        → (left.new.items ≡ others) × (result.items
        ≡ row_begun (references_taken (query_asked asked.now) series.now) left.old.items) }
{
    if takes_none(asked, series.chunks.members()) {
        return Vec::new(asked.alloc);
    }
    match left.pop_front() {
        Some(row) => row.samples,
        None => Vec::new(asked.alloc),
    }
}

/// Whether no chunk meets the range.
fn takes_none(asked: &Asked<'_>, chunks: &[ChunkPlace]) -> bool
    ensures { result
        ≡ list_all (λ place. not (meets asked.now.low asked.now.high place)) chunks.now }
{
    for place in chunks {
        if meets(asked, place) {
            return false;
        }
    }
    true
}

/// A series of these samples, under its final labels.
fn series_of(
    asked: &Asked<'_>,
    series: &IndexSeries,
    samples: Vec<Sample>,
) -> Result<Series, NoMemory>
    ensures { IfOk result (λ made.
        (made.labels ≡ final_of series.now.labels
        (block_asked asked.now).external (query_asked asked.now).replicas)
        × (made.samples ≡ samples.items)) }
{
    let labels = final_labels(
        asked.alloc,
        &series.labels,
        &asked.meta.labels,
        asked.replicas,
    )?;
    let mut kept = samples;
    kept.shrink_to_fit();
    Ok(Series {
        labels,
        samples: SampleList::from_vec(kept),
    })
}

/// The chunks of rows, each by itself.
fn chunks_apart(alloc: Global, rows: &[ChunkRow]) -> Result<Vec<ChunkRead>, NoMemory>
    ensures { IfOk result (λ apart. reads_apart apart.items ≡ reads_of rows.now) }
{
    let mut apart = Vec::new(alloc);
    for row in rows {
        add_row(alloc, row, &mut apart)?;
    }
    Ok(apart)
}

/// Adds the chunks of a row.
fn add_row(alloc: Global, row: &ChunkRow, apart: &mut Vec<ChunkRead>) -> Result<(), NoMemory>
    ensures { OnOk result
        (reads_apart apart.new.items ≡ reads_apart apart.old.items ++ row_reads row.now) }
{
    add_chunks(alloc, row.chunks.as_slice(), row.samples.as_slice(), apart)
}

/// Adds chunks whose samples stand one behind another.
fn add_chunks(
    alloc: Global,
    chunks: &[RowChunk],
    samples: &[Sample],
    apart: &mut Vec<ChunkRead>,
) -> Result<(), NoMemory>
    requires { counted chunks.now ≡ length samples.now }
    ensures { OnOk result
        (reads_apart apart.new.items
        ≡ reads_apart apart.old.items ++ reads_from samples.now chunks.now) }
{
    let mut left = samples;
    for chunk in chunks {
        let (own, others) = left.split_at(chunk.count);
        add_read(alloc, chunk.reference, own, apart)?;
        left = others;
    }
    Ok(())
}

/// Adds a chunk of these samples.
fn add_read(
    alloc: Global,
    reference: u64,
    samples: &[Sample],
    apart: &mut Vec<ChunkRead>,
) -> Result<(), NoMemory>
    ensures { OnOk result
        (reads_apart apart.new.items
        ≡ reads_apart apart.old.items ++ read reference samples.now ∷ []) }
{
    let own = Vec::from_slice(alloc, samples)?;
    apart.push(ChunkRead {
        reference,
        samples: SampleList::from_vec(own),
    })?;
    Ok(())
}

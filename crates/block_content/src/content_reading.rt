//! What a block's files hold.
ghost use Rattle.std.specs.Prelude.{◌≡◌, ◌⊎◌, ◌*◌, ◌≤◌, List, length, sum_by, Ok, Err, IfOk, IfErr};
ghost use Rattle.std.specs.List.{AllByRecursion};
ghost use Rattle.std.specs.Result.{IsOkAnd};
ghost use Rattle.base.specs.Lists.{joined};
ghost use Rattle.base.specs.Grammar.{IsBytes};
ghost use Rattle.base.specs.Reading.{Gives};
ghost use Rattle.label_sets.specs.declared.series.Series.{Series};
ghost use Rattle.index_parts.specs.declared.index_series.IndexSeries.{IndexSeries};
ghost use Rattle.index_parts.specs.IndexFile.{IsIndex};
ghost use Rattle.block_content.specs.Content.{IsContent};
ghost use Rattle.block_content.specs.ContentRefusals.{RefusesContent};
ghost use Rattle.block_content.specs.ContentReading.{index_at, series_of, list_of, chunk_bytes, series_bytes, contents_at, content_at, AreFew, ListsFew, WalksChunks, WalksSeries};

use crate::CheckRefusal;
use crate::chunk_order::first_repeated;
use crate::chunk_reading::{append_chunk, refused_chunk, segment_bytes};
use crate::counting::{count_all, test_found};
use crate::index_reading::read_index;
use base::List;
use block_meta::{BlockFiles, Meta};
use index_parts::ChunkPlace;
use index_v2::{LentSeries, set_of};
use label_sets::{Sample, Series, SeriesList};
use std::alloc::Global;
use wire_bytes::Blob;

/// The samples of a series' chunks one after another.
fn series_samples(
    alloc: Global,
    segments: &[Blob],
    series: u32,
    chunks: &[ChunkPlace],
) -> Result<Vec<Sample>, CheckRefusal>
    ensures read { WalksChunks segments.now series chunks.now
        (λ samples parts. samples.items ≡ joined parts) result }
    ensures few { IfOk result
        (λ samples. length samples.items ≤ 8 * sum_by (chunk_bytes segments.now) chunks.now) }
{
    let mut samples = Vec::new(alloc);
    let mut chunk = 0u32;
    for place in chunks {
        samples = match append_chunk(samples, segments, *place) {
            Ok(all) => all,
            Err(cause) => return Err(refused_chunk(series, chunk, cause)),
        };
        chunk = chunk.saturating_add(1);
    }
    Ok(samples)
}

/// A series of an index with its samples.
fn series_of(
    alloc: Global,
    segments: &[Blob],
    number: u32,
    one: &LentSeries<'_>,
) -> Result<Series, CheckRefusal>
    ensures read { WalksChunks segments.now number one.now.chunks
        (λ series parts. series ≡ series_of one.now parts) result }
    ensures few { IfOk result
        (λ series. length series.samples ≤ 8 * series_bytes segments.now one.now) }
{
    let samples = series_samples(alloc, segments, number, one.chunks())?;
    Ok(Series {
        labels: set_of(alloc, one.labels())?,
        samples: List::from_vec(samples),
    })
}

/// The series of an index, each with its samples.
fn all_series(
    alloc: Global,
    segments: &[Blob],
    indexed: &[LentSeries<'_>],
) -> Result<SeriesList, CheckRefusal>
    ensures read { WalksSeries segments.now indexed.now
        (λ made parts. made ≡ list_of indexed.now parts) result }
    ensures few { IfOk result (λ made. AreFew segments.now indexed.now made) }
{
    let mut made = SeriesList::new(alloc);
    let mut number = 0u32;
    for one in indexed {
        made.push(series_of(alloc, segments, number, one)?)?;
        number = number.saturating_add(1);
    }
    Ok(made)
}

/// Reads the series that a block's files hold. They are tested first, so nothing is built of files that are refused.
pub fn content(alloc: Global, files: &BlockFiles) -> Result<SeriesList, CheckRefusal>
    // What is read is what the files hold, and what they hold is read.
    ensures found { IfOk result (IsContent files.now) }
    ensures only { (list : List Series) → IsContent files.now list
        → IsOkAnd result (λ found. found ≡ list) ⊎ (result ≡ Err CheckRefusal.NoMemory) }

    // A refusal is the first of the whole block: index, chunks, times, order of chunks.
    ensures refused { IfErr result
        (λ refusal. (refusal ≡ CheckRefusal.NoMemory) ⊎ RefusesContent files.now refusal) }
    ensures refuses { (refusal : CheckRefusal) → RefusesContent files.now refusal
        → (result ≡ Err refusal) ⊎ (result ≡ Err CheckRefusal.NoMemory) }

    // The index lists few series, labels and chunks for its bytes. No series has more than eight samples for each byte of its
    // chunks, each counted as often as it is named.
    ensures few { IfOk result (λ list. (indexed : List IndexSeries)
        × IsIndex files.now.index indexed
        × ListsFew files.now.index indexed × AreFew files.now.segments indexed list) }
    ensures exact { Gives CheckRefusal.NoMemory (λ list. list) result (content_at files.now) }
{
    read_content(
        alloc,
        &files.meta,
        files.index.bytes(),
        files.segments.members(),
    )
}

fn read_content(
    alloc: Global,
    meta: &Meta,
    index: &[u8],
    segments: &[Blob],
) -> Result<SeriesList, CheckRefusal>
    ensures exact { Gives CheckRefusal.NoMemory
        (λ list. list) result (contents_at meta.now index.now segments.now) }
    ensures few { IfOk result (λ list. (indexed : List IndexSeries)
        × (index_at index.now ≡ Ok indexed)
        × ListsFew index.now indexed × AreFew segments.now indexed list) }
    ensures bytes { IsBytes index.now × AllByRecursion IsBytes segments.now }
{
    let _bytes = segment_bytes(segments);
    let indexed = read_index(alloc, index)?;
    let counts = count_all(alloc, meta, segments, indexed.members())?;
    test_found(counts.outside, first_repeated(indexed.members()))?;
    all_series(alloc, segments, indexed.members())
}

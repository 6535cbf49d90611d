//! The runs of series that are read, and their series.
ghost use Rattle.std.specs.Prelude.{◌≡◌, ◌+◌, ◌^◌, ◌<◌, length, map, option_map, IfOk, IsOk, Ok};
ghost use Rattle.std.specs.List.{list_all};
ghost use Rattle.store_ranges.specs.Caches.{held};
ghost use Rattle.index_parts.specs.RowsReading.{postings_table_at};
ghost use Rattle.index_parts.specs.Parts.{known};
ghost use Rattle.index_v2.specs.declared.refusal.IndexRefusal.TheVariants.{NoMemory as WithoutMemory};
ghost use Rattle.store_ranges.specs.IndexRanges.{has_bytes};
ghost use Rattle.store_ranges.specs.IndexReads.{reached};
ghost use Rattle.store_ranges.specs.Asking.{query_asked, block_asked};
ghost use Rattle.store_ranges.specs.ToRead.{run_read};
ghost use Rattle.store_calls.specs.WorkStates.{tables_in, texts_of};
ghost use Rattle.store_calls.specs.RunFindings.{GoesOnRuns, FindsSeries, SelectsRuns, TakesRun};

use crate::work::{SymbolsRead, TablesRead};
use base::NoMemory;
use block_keys::Key;
use index_parts::Toc;
use index_v2::{IndexParts, IndexReader, IndexRefusal, IndexSeries};
use std::alloc::Global;
use std::collections::VecDeque;
use store_ranges::{
    Asked, IndexCache, RunRead, from_cache, runs_to_read, select, series_of_run, series_of_whole,
};

/// How far the runs that the cache has lead.
#[derive(Drop)]
pub(crate) enum Taken {
    /// To a run that it has not got.
    Waits {
        run: RunRead,
        later: VecDeque<RunRead>,
        series: Vec<IndexSeries>,
    },
    /// To the series of all of them.
    All(Vec<IndexSeries>),
    /// To one that is no run of series.
    Refused,
}

/// A refusal that is want of memory.
fn only_memory(refusal: IndexRefusal) -> NoMemory
    requires { refusal ≡ WithoutMemory }
{
    match refusal {
        IndexRefusal::NoMemory => NoMemory,
        IndexRefusal::BadMagic
        | IndexRefusal::BadVersion
        | IndexRefusal::BadTocSum { .. }
        | IndexRefusal::BadSection(..)
        | IndexRefusal::BadSeries(..)
        | IndexRefusal::PostingsDiffer(_) => unreachable!(),
    }
}

/// A reader over a postings table that was tested before, and over the lists, without symbols:
/// nothing but memory can be wanting.
fn lists_reader<'a>(
    alloc: Global,
    toc: Toc,
    table: &'a [u8],
    postings: &'a [u8],
) -> Result<IndexReader<'a>, NoMemory>
    requires table { toc.postings_table + length table.now < 2 ^ 64 }
    requires postings { toc.postings + length postings.now < 2 ^ 64 }
    requires tested { IsOk (postings_table_at (known
        (record { begin = toc.postings_table; bytes = table.now })) toc.postings_table) }
    ensures rows { IfOk result (λ reader. 0 < toc.postings_table
        → postings_table_at (known
        (record { begin = toc.postings_table; bytes = table.now })) toc.postings_table
        ≡ Ok reader.rows) }
    ensures lists { IfOk result
        (λ reader. reader.lists ≡ record { begin = toc.postings; bytes = postings.now }) }
{
    let parts = IndexParts {
        toc: Toc { symbols: 0, ..toc },
        size: 0,
        symbols: &[],
        table,
        postings,
    };
    match IndexReader::over(alloc, parts) {
        Ok(reader) => Ok(reader),
        Err(refusal) => Err(only_memory(refusal)),
    }
}

/// The runs of the series that the selector takes. None where one of the lists that it needs is
/// refused.
pub(crate) fn selected_runs(
    asked: &Asked<'_>,
    read: &TablesRead,
    lists: &[u8],
) -> Result<Option<Vec<RunRead>>, NoMemory>
    requires { read.now.first.places.toc.postings + length lists.now < 2 ^ 64 }
    ensures { IfOk result
        (λ found. SelectsRuns (query_asked asked.now)
        (block_asked asked.now) read.now.first.places.toc read.now.first.places.size
        (tables_in read.now lists.now) (option_map (λ runs. runs.items) found)) }
{
    let places = read.first.places;
    let reader = lists_reader(asked.alloc, places.toc, read.table.bytes(), lists)?;
    match select(asked, &reader)? {
        Some(found) => Ok(Some(runs_to_read(
            asked.alloc,
            places,
            found.all.members(),
            found.numbers.members(),
        )?)),
        None => Ok(None),
    }
}

/// Whether each run begins before its end.
pub(crate) fn have_bytes(runs: &[RunRead]) -> bool
    ensures { result ≡ list_all (λ run. has_bytes run.piece) (map run_read runs.now) }
{
    for run in runs {
        if run.range.len == 0 {
            return false;
        }
    }
    true
}

/// Takes the series of runs from the cache, up to a run that it has not got.
pub(crate) fn cached_runs(
    asked: &Asked<'_>,
    cache: &mut IndexCache,
    read: &SymbolsRead,
    last: u64,
    runs: VecDeque<RunRead>,
    series: Vec<IndexSeries>,
) -> Result<Taken, NoMemory>
    ensures { IfOk result
        (GoesOnRuns asked.now (texts_of read.now) last (held cache.old)
        (held cache.new) runs.items series.items) }
{
    let mut later = runs;
    let mut all = series;
    while let Some(run) = later.pop_front() {
        match from_cache(cache, Key::Index(asked.ulid), run.range)? {
            Some(bytes) => match run_taken(asked.alloc, read, &run, bytes.bytes(), all)? {
                Some(more) => all = more,
                None => return Ok(Taken::Refused),
            },
            None => {
                return Ok(Taken::Waits {
                    run,
                    later,
                    series: all,
                });
            }
        }
    }
    Ok(Taken::All(all))
}

/// The series of a run behind others. None where the bytes are not as many as were asked for, or a
/// series is refused.
pub(crate) fn run_taken(
    alloc: Global,
    read: &SymbolsRead,
    run: &RunRead,
    bytes: &[u8],
    series: Vec<IndexSeries>,
) -> Result<Option<Vec<IndexSeries>>, NoMemory>
    ensures { IfOk result
        (λ found. TakesRun (texts_of read.now) (run_read run.now) bytes.now series.items
        (option_map (λ all. all.items) found)) }
{
    if bytes.len() as u64 != run.range.len {
        return Ok(None);
    }
    series_of_run(alloc, &read.symbols, run, bytes, series)
}

/// The series that the selector takes from a whole index. None where it is refused.
pub(crate) fn whole_series(
    asked: &Asked<'_>,
    bytes: &[u8],
) -> Result<Option<Vec<IndexSeries>>, NoMemory>
    ensures { IfOk result
        (λ found. FindsSeries (query_asked asked.now) (block_asked asked.now) bytes.now
        (option_map (λ all. all.items) found)) }
{
    let reader = match IndexReader::open(asked.alloc, bytes) {
        Ok(reader) => reader,
        Err(IndexRefusal::NoMemory) => return Err(NoMemory),
        Err(_) => return Ok(None),
    };
    match select(asked, &reader)? {
        Some(found) => series_of_whole(asked.alloc, &reader, found.numbers.members()),
        None => Ok(None),
    }
}

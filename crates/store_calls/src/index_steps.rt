//! The reads of a block's index, up to the series that the selector takes.
ghost use Rattle.std.specs.Prelude.{◌≡◌, ◌+◌, ◌*◌, ◌^◌, ◌<◌, ◌≤◌, length, map, option_map, IfOk, Ok, Some};
ghost use Rattle.store_ranges.specs.Caches.{held};
ghost use Rattle.index_parts.specs.IndexFile.{least_size};
ghost use Rattle.store_ranges.specs.Reads.{Cache};
ghost use Rattle.store_ranges.specs.IndexReads.{reached, after_contents, after_whole, by_size};
ghost use Rattle.store_calls.specs.BlockReads.{block_call, breaks_off};
ghost use Rattle.store_ranges.specs.Asking.{query_asked, block_asked, piece_of};
ghost use Rattle.store_ranges.specs.ToRead.{run_read};
ghost use Rattle.store_calls.specs.BlockRuns.{Leading};
ghost use Rattle.store_calls.specs.WorkStates.{most, Leads, after_index, whole_left, range_left, sized_left, runs_left, with_run, with_symbols, with_table, with_lists, texts_of, symbols_piece, table_piece, lists_piece, contents_left};
ghost use Rattle.store_calls.specs.RunFindings.{HasSections, FindsSections, TestsSymbols, TestsTable, FindsRuns};

use crate::BlockOutcome;
use crate::chunk_steps::begin_chunks;
use crate::run_steps::{Taken, cached_runs, have_bytes, run_taken, selected_runs, whole_series};
use crate::work::{IndexSize, RunWork, Step, SymbolsRead, TablesRead, Work};
use base::NoMemory;
use block_keys::Key;
use index_parts::{CONTENTS_SIZE, LEAST_SIZE, Toc, read_toc};
use index_v2::IndexSeries;
use std::collections::VecDeque;
use store_ranges::{
    Asked, ByteRange, IndexCache, RunRead, Sections, from_cache, has_sections, index_size,
    is_table, section_range, symbols_of,
};
use wire_bytes::Blob;
use world_core::Op;

/// How many bytes an index has at least, and how many of them its table of contents.
const LEAST: u64 = LEAST_SIZE as u64;

const CONTENTS: u64 = CONTENTS_SIZE as u64;

/// The first step of a block's call: it asks for the table of contents, or for the whole index where the
/// meta tells no size that an index may have.
pub(crate) fn begin(asked: &Asked<'_>) -> Step
    ensures { (cache : Cache) → Leads asked.now cache (9 * most * most)
        (Leading (block_call (query_asked asked.now) (block_asked asked.now) cache)) (Ok result) }
{
    match index_size(asked) {
        Some(size) => begin_sized(asked, size),
        None => ask_whole(asked),
    }
}

/// The first step where the meta tells how long the index is.
fn begin_sized(asked: &Asked<'_>, size: u64) -> Step
    ensures { (cache : Cache) → Leads asked.now cache (9 * most * most)
        (Leading (by_size breaks_off (query_asked asked.now) (block_asked asked.now) (Some size)
        (after_index (query_asked asked.now) (block_asked asked.now)) cache)) (Ok result) }
{
    if size >= LEAST {
        ask_contents(asked, size)
    } else {
        ask_whole(asked)
    }
}

/// Asks for the table of contents.
fn ask_contents(asked: &Asked<'_>, size: u64) -> Step
    requires { least_size ≤ size }
    ensures { (cache : Cache) → Leads asked.now cache (9 * most * most)
        (Leading (contents_left asked.now size cache)) (Ok result) }
{
    Step::Wait(
        Op::GetRange(Key::Index(asked.ulid), size - CONTENTS, CONTENTS),
        Work::Contents(IndexSize { bytes: size }),
    )
}

/// Asks for the whole index.
pub(crate) fn ask_whole(asked: &Asked<'_>) -> Step
    ensures { (cache : Cache)
        → Leads asked.now cache (4 * most * most) (Leading (whole_left asked.now cache))
        (Ok result) }
{
    Step::Wait(Op::Get(Key::Index(asked.ulid)), Work::Whole)
}

/// The range of the symbols.
pub(crate) fn symbols_range(places: Sections) -> ByteRange
    ensures value { piece_of result ≡ symbols_piece places }
    ensures fits { places.toc.symbols + result.len < 2 ^ 64 }
    ensures from { result.from ≡ places.toc.symbols }
{
    section_range(&places.toc, places.size, places.toc.symbols)
}

/// The range of the postings table.
pub(crate) fn table_range(read: &SymbolsRead) -> ByteRange
    ensures value { piece_of result ≡ table_piece read.now.places }
    ensures fits { read.now.places.toc.postings_table + result.len < 2 ^ 64 }
    ensures from { result.from ≡ read.now.places.toc.postings_table }
{
    let places = read.places;
    section_range(&places.toc, places.size, places.toc.postings_table)
}

/// The range of the postings lists.
pub(crate) fn lists_range(read: &TablesRead) -> ByteRange
    ensures value { piece_of result ≡ lists_piece read.now.first.places }
    ensures fits { read.now.first.places.toc.postings + result.len < 2 ^ 64 }
{
    let places = read.first.places;
    section_range(&places.toc, places.size, places.toc.postings)
}

/// Asks for a range of the index.
fn ask_range(asked: &Asked<'_>, range: ByteRange, work: Work) -> Step
    ensures { result ≡ Step.Wait
        (Op.GetRange (Key.Index asked.now.ulid) range.from range.len) work }
{
    Step::Wait(
        Op::GetRange(Key::Index(asked.ulid), range.from, range.len),
        work,
    )
}

/// Goes on behind the table of contents.
pub(crate) fn take_contents(
    asked: &Asked<'_>,
    cache: &mut IndexCache,
    size: IndexSize,
    seq: u64,
    bytes: &[u8],
) -> Result<Step, NoMemory>
    ensures { Leads asked.now (held cache.new) (8 * most * most)
        (Leading (after_contents breaks_off (query_asked asked.now)
        (block_asked asked.now) size.bytes
        (after_index (query_asked asked.now) (block_asked asked.now))
        (held cache.old) seq bytes.now)) result }
{
    match sections_of(size, bytes) {
        Some(places) => want_symbols(asked, cache, places, seq),
        None => Ok(ask_whole(asked)),
    }
}

/// The sections that are read, where the table of contents has all of them.
fn sections_of(size: IndexSize, bytes: &[u8]) -> Option<Sections>
    ensures { FindsSections size.bytes bytes.now result }
{
    if bytes.len() != CONTENTS_SIZE {
        return None;
    }
    match read_toc(bytes) {
        Ok(toc) => sections_at(toc, size),
        Err(_) => None,
    }
}

/// The sections that are read, where they have bytes.
fn sections_at(toc: Toc, size: IndexSize) -> Option<Sections>
    ensures { HasSections toc size.bytes result }
{
    if has_sections(&toc, size.bytes) {
        Some(Sections {
            toc,
            size: size.bytes,
        })
    } else {
        None
    }
}

/// Reads the symbols.
fn want_symbols(
    asked: &Asked<'_>,
    cache: &mut IndexCache,
    places: Sections,
    last: u64,
) -> Result<Step, NoMemory>
    ensures { Leads asked.now (held cache.new) (8 * most * most)
        (Leading (range_left asked.now (symbols_piece places) (reached last (held cache.old))
        (with_symbols asked.now places))) result }
{
    let range = symbols_range(places);
    match from_cache(cache, Key::Index(asked.ulid), range)? {
        Some(bytes) => take_symbols(asked, cache, places, last, bytes),
        None => Ok(ask_range(asked, range, Work::Symbols(places))),
    }
}

/// Goes on behind the symbols.
pub(crate) fn take_symbols(
    asked: &Asked<'_>,
    cache: &mut IndexCache,
    places: Sections,
    last: u64,
    bytes: Blob,
) -> Result<Step, NoMemory>
    ensures { Leads asked.now (held cache.new) (7 * most * most)
        (Leading (sized_left asked.now (symbols_piece places) (reached last (held cache.old))
        (with_symbols asked.now places) bytes)) result }
{
    match tested_symbols(asked, places, bytes)? {
        Some(read) => want_table(asked, cache, read, last),
        None => Ok(ask_whole(asked)),
    }
}

/// The symbols. None where their bytes are not as many as were asked for, or no symbols.
fn tested_symbols(
    asked: &Asked<'_>,
    places: Sections,
    bytes: Blob,
) -> Result<Option<SymbolsRead>, NoMemory>
    ensures { IfOk result (TestsSymbols places bytes) }
{
    let range = symbols_range(places);
    if bytes.bytes().len() as u64 != range.len {
        return Ok(None);
    }
    match symbols_of(asked.alloc, range, bytes.bytes())? {
        Some(symbols) => Ok(Some(SymbolsRead { places, symbols })),
        None => Ok(None),
    }
}

/// Reads the postings table.
fn want_table(
    asked: &Asked<'_>,
    cache: &mut IndexCache,
    read: SymbolsRead,
    last: u64,
) -> Result<Step, NoMemory>
    ensures { Leads asked.now (held cache.new) (7 * most * most)
        (Leading (range_left asked.now (table_piece read.places) (reached last (held cache.old))
        (with_table asked.now read))) result }
{
    let range = table_range(&read);
    match from_cache(cache, Key::Index(asked.ulid), range)? {
        Some(bytes) => take_table(asked, cache, read, last, bytes),
        None => Ok(ask_range(asked, range, Work::Table(read))),
    }
}

/// Goes on behind the postings table.
pub(crate) fn take_table(
    asked: &Asked<'_>,
    cache: &mut IndexCache,
    read: SymbolsRead,
    last: u64,
    bytes: Blob,
) -> Result<Step, NoMemory>
    ensures { Leads asked.now (held cache.new) (6 * most * most)
        (Leading (sized_left asked.now (table_piece read.places) (reached last (held cache.old))
        (with_table asked.now read) bytes)) result }
{
    match tested_table(asked, read, bytes)? {
        Some(both) => want_lists(asked, cache, both, last),
        None => Ok(ask_whole(asked)),
    }
}

/// The bytes of the postings table. None where they are not as many as were asked for, or no
/// postings table.
fn tested_table(
    asked: &Asked<'_>,
    read: SymbolsRead,
    bytes: Blob,
) -> Result<Option<TablesRead>, NoMemory>
    ensures { IfOk result (TestsTable read bytes) }
{
    let range = table_range(&read);
    if bytes.bytes().len() as u64 == range.len && is_table(asked.alloc, range, bytes.bytes())? {
        Ok(Some(TablesRead {
            first: read,
            table: bytes,
        }))
    } else {
        Ok(None)
    }
}

/// Reads the postings lists.
fn want_lists(
    asked: &Asked<'_>,
    cache: &mut IndexCache,
    read: TablesRead,
    last: u64,
) -> Result<Step, NoMemory>
    ensures { Leads asked.now (held cache.new) (6 * most * most)
        (Leading (range_left asked.now (lists_piece read.first.places)
        (reached last (held cache.old)) (with_lists asked.now read))) result }
{
    let range = lists_range(&read);
    match from_cache(cache, Key::Index(asked.ulid), range)? {
        Some(bytes) => take_lists(asked, cache, read, last, bytes),
        None => Ok(ask_range(asked, range, Work::Lists(read))),
    }
}

/// Goes on behind the postings lists.
pub(crate) fn take_lists(
    asked: &Asked<'_>,
    cache: &mut IndexCache,
    read: TablesRead,
    last: u64,
    bytes: Blob,
) -> Result<Step, NoMemory>
    ensures { Leads asked.now (held cache.new) (5 * most * most)
        (Leading (sized_left asked.now (lists_piece read.first.places)
        (reached last (held cache.old)) (with_lists asked.now read) bytes)) result }
{
    match runs_of_lists(asked, &read, bytes.bytes())? {
        Some(runs) => go_on_runs(
            asked,
            cache,
            read.first,
            last,
            VecDeque::from(runs),
            Vec::new(asked.alloc),
        ),
        None => Ok(ask_whole(asked)),
    }
}

/// The runs that are to be read. None where the bytes are not as many as were asked for, a list is
/// refused, or a run has no bytes.
fn runs_of_lists(
    asked: &Asked<'_>,
    read: &TablesRead,
    lists: &[u8],
) -> Result<Option<Vec<RunRead>>, NoMemory>
    ensures { IfOk result
        (λ found. FindsRuns asked.now read.now lists.now (option_map (λ runs. runs.items) found)) }
{
    let range = lists_range(read);
    if lists.len() as u64 != range.len {
        return Ok(None);
    }
    match selected_runs(asked, read, lists)? {
        Some(runs) => if have_bytes(&runs) {
            Ok(Some(runs))
        } else {
            Ok(None)
        },
        None => Ok(None),
    }
}

/// Reads runs of series, of which those that the cache has are not waited for.
fn go_on_runs(
    asked: &Asked<'_>,
    cache: &mut IndexCache,
    read: SymbolsRead,
    last: u64,
    runs: VecDeque<RunRead>,
    series: Vec<IndexSeries>,
) -> Result<Step, NoMemory>
    ensures { Leads asked.now (held cache.new) (4 * most * most + length runs.items)
        (Leading (runs_left asked.now (texts_of read) (map run_read runs.items)
        (reached last (held cache.old)) series.items)) result }
{
    match cached_runs(asked, cache, &read, last, runs, series)? {
        Taken::Waits { run, later, series } => Ok(ask_range(
            asked,
            run.range,
            Work::Run(RunWork {
                read,
                run,
                later,
                series,
            }),
        )),
        Taken::All(series) => begin_chunks(asked, last, series),
        Taken::Refused => Ok(ask_whole(asked)),
    }
}

/// Goes on behind the bytes of a run.
pub(crate) fn take_run(
    asked: &Asked<'_>,
    cache: &mut IndexCache,
    last: u64,
    work: RunWork,
    bytes: &Blob,
) -> Result<Step, NoMemory>
    ensures { Leads asked.now (held cache.new) (4 * most * most + length work.later.items)
        (Leading (sized_left asked.now (piece_of work.run.range) (reached last (held cache.old))
        (with_run asked.now (texts_of work.read) (run_read work.run)
        (map run_read work.later.items) work.series.items) bytes.now)) result }
{
    let RunWork {
        read,
        run,
        later,
        series,
    } = work;
    match run_taken(asked.alloc, &read, &run, bytes.bytes(), series)? {
        Some(all) => go_on_runs(asked, cache, read, last, later, all),
        None => Ok(ask_whole(asked)),
    }
}

/// Goes on behind the whole index.
pub(crate) fn take_whole(asked: &Asked<'_>, seq: u64, bytes: &[u8]) -> Result<Step, NoMemory>
    ensures { (cache : Cache) → Leads asked.now cache (3 * most * most)
        (Leading (after_whole breaks_off (query_asked asked.now) (block_asked asked.now) cache
        (after_index (query_asked asked.now) (block_asked asked.now)) seq bytes.now)) result }
{
    match whole_series(asked, bytes)? {
        Some(series) => begin_chunks(asked, seq, series),
        None => Ok(Step::Done(BlockOutcome::Damaged(seq))),
    }
}

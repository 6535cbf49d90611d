//! The series of an index, or of a part of it.
ghost use Rattle.std.specs.Prelude.{◌≡◌, ◌*◌, ◌^◌, ◌<◌, ◌≤◌, All, length, Ok, IsErr, IfOk, IfSome};
ghost use Rattle.index_parts.specs.SeriesReading.{series_at};
ghost use Rattle.index_parts.specs.Parts.{known};
ghost use Rattle.index_v2.specs.SeriesLabels.{numbered_at};
ghost use Rattle.base.specs.Firsts.{each_at};
ghost use Rattle.index_parts.specs.IndexFile.{series_unit};
ghost use Rattle.store_ranges.specs.IndexReads.{part_at};
ghost use Rattle.store_ranges.specs.Asking.{piece_of};
ghost use Rattle.store_ranges.specs.Findings.{ReadsAs, ReadsBehind};

use crate::label_reads::named_series;
use crate::run_read::RunRead;
use crate::symbol_texts::SymbolTexts;
use base::NoMemory;
use index_parts::{PartRefusal, RawSeries, SERIES_UNIT, read_series};
use index_v2::{IndexReader, IndexRefusal, IndexSeries};
use std::alloc::Global;

/// The series at a place of these bytes, with its symbol numbers. None where it is refused.
fn raw_at(alloc: Global, bytes: &[u8], at: u64) -> Result<Option<RawSeries>, NoMemory>
    ensures reads { IfOk result (ReadsAs (λ raw. raw) (series_at bytes.now at)) }
    ensures pairs { IfOk result
        (λ found. IfSome found (λ raw. length raw.names ≡ length raw.values)) }
    ensures fits { length bytes.now < 2 ^ 63 }
{
    match read_series(alloc, bytes, at) {
        Ok(raw) => Ok(Some(raw)),
        Err(PartRefusal::NoMemory) => Err(NoMemory),
        Err(_) => Ok(None),
    }
}

/// The series of a number in the bytes of a run. None where it is refused.
fn series_in(
    alloc: Global,
    symbols: &SymbolTexts,
    run: &RunRead,
    bytes: &[u8],
    number: u64,
) -> Result<Option<IndexSeries>, NoMemory>
    requires begins { run.now.range.from ≤ series_unit * number }
    requires small { number < 2 ^ 32 }
    ensures { IfOk result (ReadsAs (λ one. one)
        (numbered_at (known (part_at
        (piece_of run.now.range) bytes.now)) symbols.now number)) }
{
    match raw_at(alloc, bytes, SERIES_UNIT * number - run.range.from)? {
        Some(raw) => named_series(alloc, symbols, raw),
        None => Ok(None),
    }
}

/// The series of a run, behind others. None where one of them is refused.
pub fn series_of_run(
    alloc: Global,
    symbols: &SymbolTexts,
    run: &RunRead,
    bytes: &[u8],
    series: Vec<IndexSeries>,
) -> Result<Option<Vec<IndexSeries>>, NoMemory>
    ensures { IfOk result (ReadsBehind (λ all. all.items) series.items
        (each_at (numbered_at
        (known (part_at (piece_of run.now.range) bytes.now)) symbols.now) run.now.numbers)) }
{
    series_of_numbers(alloc, symbols, run, run.numbers.members(), bytes, series)
}

/// The series of these numbers in the bytes of a run, behind others.
fn series_of_numbers(
    alloc: Global,
    symbols: &SymbolTexts,
    run: &RunRead,
    numbers: &[u64],
    bytes: &[u8],
    series: Vec<IndexSeries>,
) -> Result<Option<Vec<IndexSeries>>, NoMemory>
    requires begins { All (λ n. run.now.range.from ≤ series_unit * n) numbers.now }
    requires small { All (λ n. n < 2 ^ 32) numbers.now }
    ensures { IfOk result (ReadsBehind (λ all. all.items) series.items
        (each_at (numbered_at
        (known (part_at (piece_of run.now.range) bytes.now)) symbols.now) numbers.now)) }
{
    let mut all = series;
    for number in numbers {
        match series_in(alloc, symbols, run, bytes, *number)? {
            Some(one) => all.push(one)?,
            None => return Ok(None),
        }
    }
    Ok(Some(all))
}

/// The series of a number in a whole index. None where it is refused.
fn series_at(
    alloc: Global,
    index: &IndexReader<'_>,
    number: u64,
) -> Result<Option<IndexSeries>, NoMemory>
    requires { number < 2 ^ 32 }
    ensures { IfOk result
        (ReadsAs (λ one. one) (numbered_at index.now.bytes index.now.symbols number)) }
{
    match index.series(alloc, number as u32) {
        Ok(one) => Ok(Some(one)),
        Err(IndexRefusal::NoMemory) => Err(NoMemory),
        Err(_) => Ok(None),
    }
}

/// The series of these numbers in a whole index. None where one of them is refused.
pub fn series_of_whole(
    alloc: Global,
    index: &IndexReader<'_>,
    numbers: &[u64],
) -> Result<Option<Vec<IndexSeries>>, NoMemory>
    requires { All (λ n. n < 2 ^ 32) numbers.now }
    ensures { IfOk result
        (ReadsAs (λ all. all.items)
        (each_at (numbered_at index.now.bytes index.now.symbols) numbers.now)) }
{
    let mut all = Vec::new(alloc);
    for number in numbers {
        match series_at(alloc, index, *number)? {
            Some(one) => all.push(one)?,
            None => return Ok(None),
        }
    }
    Ok(Some(all))
}

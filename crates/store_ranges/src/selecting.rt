//! The series that a selector takes.
ghost use Rattle.std.specs.Prelude.{◌≡◌, ◌^◌, ◌<◌, All, slice_get, Ok, IsErr, IfOk, IfSome};
ghost use Rattle.std.specs.List.Sorted.{IsStrictlyIncreasing};
ghost use Rattle.index_v2.specs.PostingsLists.{list_of};
ghost use Rattle.store_ranges.specs.Findings.{ReadsAs};
ghost use Rattle.store_ranges.specs.Asking.{query_asked, block_asked};
ghost use Rattle.store_ranges.specs.Selecting.{tables_held, Selects};

use crate::asked::Asked;
use crate::selection::Selection;
use base::NoMemory;
use index_v2::{IndexReader, IndexRefusal};
use series_selection::select_postings;
use std::alloc::Global;
use wire_bytes::NumberList;

/// The numbers of all series. None where their list is refused.
fn all_series(alloc: Global, index: &IndexReader<'_>) -> Result<Option<NumberList>, NoMemory>
    ensures reads { IfOk result
        (ReadsAs (λ all. all) (list_of index.now.lists (slice_get index.now.rows 0))) }
    ensures rise { IfOk result (λ found. IfSome found IsStrictlyIncreasing) }
    ensures small { IfOk result (λ found. IfSome found (All (λ n. n < 2 ^ 32))) }
{
    if index.row_count() == 0 {
        return Ok(Some(NumberList::new(alloc)));
    }
    match index.row_numbers(alloc, 0) {
        Ok(all) => Ok(Some(all)),
        Err(IndexRefusal::NoMemory) => Err(NoMemory),
        Err(_) => Ok(None),
    }
}

/// The series that the selector takes, by the lists of an index. None where one of the lists that
/// it needs is refused.
pub fn select(asked: &Asked<'_>, index: &IndexReader<'_>) -> Result<Option<Selection>, NoMemory>
    ensures { IfOk result
        (Selects (query_asked asked.now) (block_asked asked.now) (tables_held index.now)) }
{
    let all = match all_series(asked.alloc, index)? {
        Some(all) => all,
        None => return Ok(None),
    };
    match select_postings(asked.alloc, index, asked.selector, &asked.meta.labels) {
        Ok(numbers) => Ok(Some(Selection { all, numbers })),
        Err(IndexRefusal::NoMemory) => Err(NoMemory),
        Err(_) => Ok(None),
    }
}

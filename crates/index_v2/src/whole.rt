//! The whole of an index, read and tested at once: every series, every postings list, and that the lists are just those
//! of the series. A block of a shelf is shipped, and a block is merged, only where its index was read so.

ghost use Rattle.std.specs.Prelude.{◌≡◌, ◌⊎◌, ◌+◌, ◌-◌, ◌^◌, ◌<◌, ◌≤◌, [], ℕ, List, All, length, zip, slice_get, None, Err, IfOk, IfSome, OnOk, MatchResult, if◌then◌else◌};
ghost use Rattle.base.specs.Reading.{Gives, Answers};
ghost use Rattle.index_parts.specs.Rows.{compare_rows};
ghost use Rattle.std.specs.List.Sorted.{IsStrictlyIncreasing, IsStrictlySortedBy};
ghost use Rattle.index_parts.specs.Parts.{part_of};
ghost use Rattle.index_parts.specs.IndexFile.{labels_of};
ghost use Rattle.index_parts.specs.declared.index_series.IndexSeries.{IndexSeries};
ghost use Rattle.index_v2.specs.Ranks.{AreSymbols, IsRanked, AreRanked, IsRowRank, AreRowRanks, TellsRow};
ghost use Rattle.index_v2.specs.WholeReading.{present_at, may_stand_behind, behind_at, all_at, lists_at, differing_at, AreKept, whole_at};

use crate::difference::{difference, is_kept, stray_at};
use crate::postings::{POSTINGS, list_at, list_of};
use crate::ranked::{RankedSeries, ranked_series};
use crate::ranks::{RankList, Ranks, compare_lists};
use crate::row_ranks::rows_ranks;
use crate::sizes::{stands_behind, test_lists};
use crate::symbols::{SYMBOLS, Symbols};
use crate::{IndexRefusal, IndexSeriesList, LentSeries};
use base::{List, NoMemory};
use index_parts::{IndexPart, PartRefusal, Rows, SERIES_UNIT, Toc};
use std::alloc::Global;
use wire_bytes::NumberList;

/// The number of the section of series.
const SERIES: u8 = 2;

/// Tests that an index which lists a series has the sections that this needs.
#[tactic(auto, unfolding(crate::specs::WholeReading::present_at))]
fn test_present(toc: &Toc, numbers: &[u64]) -> Result<(), IndexRefusal>
    ensures { Answers (λ x. x) result (present_at toc.now numbers.now) }
{
    match numbers {
        [] => Ok(()),
        _ if toc.symbols == 0 => Err(absent_section(SYMBOLS)),
        _ if toc.series == 0 => Err(absent_section(SERIES)),
        _ if toc.postings == 0 => Err(absent_section(POSTINGS)),
        _ => Ok(()),
    }
}

fn absent_section(section: u8) -> IndexRefusal
    ensures { result ≡ IndexRefusal.BadSection section (PartRefusal.Short 0) }
{
    IndexRefusal::BadSection(section, PartRefusal::Short(0))
}

/// Whether a series' labels may stand behind those of the last one before it.
fn may_stand_behind(before: &[RankList], ranks: &[Ranks]) -> bool
    ensures { (symbols : List (List ℕ)) (made : List IndexSeries) (series : IndexSeries)
        → AreSymbols symbols → AreRanked symbols made before.now
        → IsRanked symbols series ranks.now
        → result ≡ may_stand_behind (slice_get made (length made - 1)) series }
{
    match before.last() {
        None => true,
        Some(last) => compare_lists(last.members(), ranks).is_lt(),
    }
}

/// Reads the series of a number behind others, the last of which has another number.
fn series_behind<'a>(
    alloc: Global,
    index: &[u8],
    symbols: &Symbols<'a>,
    before: &[RankList],
    last: Option<u64>,
    number: u64,
) -> Result<RankedSeries<'a>, IndexRefusal>
    requires small { number < 2 ^ 32 }
    requires also { IfSome last (λ n. n < 2 ^ 32) }
    ensures exact { (made : List IndexSeries) → AreRanked symbols.now made before.now
        → Gives IndexRefusal.NoMemory (λ one. one.series) result
        (behind_at index.now symbols.now last (slice_get made (length made - 1)) number) }
    ensures ranked { IfOk result (λ one. IsRanked symbols.now one.series one.ranks) }
{
    let one = ranked_series(alloc, index, symbols, number)?;
    if stands_behind(index, last, number) && may_stand_behind(before, one.ranks.members()) {
        return Ok(one);
    }
    Err(IndexRefusal::BadSeries(number as u32, PartRefusal::Unordered(SERIES_UNIT * number)))
}

/// The listed series, and for each the ranks of its labels.
#[derive(Drop)]
pub(crate) struct AllSeries<'a> {
    series: Vec<LentSeries<'a>>,
    ranks: Vec<RankList>,
}

/// Reads the series of these numbers, which stand one behind the other and ascend by their labels.
pub(crate) fn all_series<'a>(
    alloc: Global,
    index: &[u8],
    symbols: &Symbols<'a>,
    numbers: &[u64],
) -> Result<AllSeries<'a>, IndexRefusal>
    requires { All (λ n. n < 2 ^ 32) numbers.now }
    ensures as_many { IfOk result (λ all. length all.series.items ≡ length numbers.now) }
    ensures few { IfOk result (λ all. labels_of all.series.items ≤ length index.now) }
    ensures exact { Gives IndexRefusal.NoMemory (λ all. all.series.items) result
        (all_at index.now symbols.now None None numbers.now) }
    ensures ranked { IfOk result (λ all. AreRanked symbols.now all.series.items all.ranks.items) }
{
    let mut series = Vec::new(alloc);
    let mut ranks = Vec::new(alloc);
    let mut last = None;
    for number in numbers {
        let one = series_behind(alloc, index, symbols, ranks.as_slice(), last, *number)?;
        series.push(one.series)?;
        ranks.push(one.ranks)?;
        last = Some(*number);
    }
    Ok(AllSeries { series, ranks })
}

/// The lists of rows up to the first that has a number of another series, and the place of that one. Where it stands, and
/// behind it, are empty lists: so together the lists have no more numbers than the series have labels and are series.
#[derive(Drop)]
struct KeptLists {
    lists: Vec<NumberList>,
    stray: Option<usize>,
}

/// A list that is kept, and else none.
fn kept_or_none(alloc: Global, is_kept: bool, list: NumberList) -> NumberList
    ensures { result ≡ (if is_kept then list else []) }
{
    if is_kept {
        list
    } else {
        NumberList::new(alloc)
    }
}

/// The ranks of a row, which the row of all series has not.
fn ranks_of_row(row: (&str, &str, u64), ranks: &Ranks) -> Option<Ranks>
    ensures { (symbols : List (List ℕ)) → IsRowRank symbols
        (record { name = row.entry.0.now; value = row.entry.1.now; offset = row.entry.2 }) ranks.now
        → TellsRow symbols
        (record { name = row.entry.0.now; value = row.entry.1.now; offset = row.entry.2 }) result }
{
    if row.0.is_empty() && row.1.is_empty() {
        None
    } else {
        Some(*ranks)
    }
}

/// Reads the postings lists of all rows.
fn all_lists(
    alloc: Global,
    part: IndexPart<'_>,
    rows: &Rows<'_>,
    ranks: &[Ranks],
    numbers: &[u64],
    series: &[RankList],
) -> Result<KeptLists, IndexRefusal>
    requires rise { IsStrictlyIncreasing numbers.now }
    requires as_many { length numbers.now ≡ length series.now }
    requires one_each { length rows.now ≡ length ranks.now }
    requires fits { part.begin + length part.bytes.now < 2 ^ 64 }
    ensures few { OnOk result (length rows.now < 2 ^ 32) }
    ensures read { (symbols : List (List ℕ)) (listed : List IndexSeries)
        → AreRowRanks symbols rows.now ranks.now → AreRanked symbols listed series.now
        → MatchResult result (λ kept. AreKept (part_of part.entry) rows.now
        (zip numbers.now listed) kept.lists.items kept.stray)
        (λ e. (e ≡ IndexRefusal.NoMemory) ⊎ (lists_at (part_of part.entry) rows.now ≡ Err e)) }
{
    let mut lists = Vec::new(alloc);
    let mut stray = None;
    let mut guess = 0;
    for place in 0..rows.len() {
        let Some(row) = rows.get(place) else {
            return Ok(KeptLists { lists, stray });
        };
        let list = list_at(alloc, part, row.2)?;
        let label = ranks_of_row(row, &ranks[place]);
        let (is_kept, next) = is_kept(stray, numbers, series, label, list.members(), guess);
        lists.push(kept_or_none(alloc, is_kept, list))?;
        stray = stray_at(stray, is_kept, place);
        guess = next;
    }
    Ok(KeptLists { lists, stray })
}

/// Reads the postings lists of all rows. The least place at which they are not exactly those of the series.
fn differing_place(
    alloc: Global,
    part: IndexPart<'_>,
    rows: &Rows<'_>,
    symbols: &Symbols<'_>,
    numbers: &[u64],
    all: &AllSeries<'_>,
) -> Result<Option<usize>, IndexRefusal>
    requires rise { IsStrictlyIncreasing numbers.now }
    requires as_many { length numbers.now ≡ length all.now.series.items }
    requires ranked { AreRanked symbols.now all.now.series.items all.now.ranks.items }
    requires ascending { IsStrictlySortedBy compare_rows rows.now }
    requires fits { part.begin + length part.bytes.now < 2 ^ 64 }
    ensures small { IfOk result (λ found. IfSome found (λ place. place < 2 ^ 32)) }
    ensures exact { Gives IndexRefusal.NoMemory (λ found. found) result
        (differing_at (part_of part.entry) rows.now (zip numbers.now all.now.series.items)) }
{
    let ranks = rows_ranks(alloc, symbols, rows)?;
    let series = all.ranks.as_slice();
    let kept = all_lists(alloc, part, rows, ranks.as_slice(), numbers, series)?;
    Ok(difference(
        ranks.as_slice(),
        kept.stray,
        kept.lists.as_slice(),
        numbers,
        series,
    ))
}

/// Reads every series, and tests that the postings lists are exactly those of the series. The index lends the texts.
#[tactic(auto, unfolding(crate::specs::WholeReading::whole_at))]
pub(crate) fn whole_lent<'a>(
    alloc: Global,
    index: &[u8],
    toc: &Toc,
    symbols: &Symbols<'a>,
    rows: &Rows<'_>,
    part: IndexPart<'_>,
) -> Result<List<LentSeries<'a>>, IndexRefusal>
    requires { part.begin + length part.bytes.now < 2 ^ 64 }
    ensures { (symbols_size rows_size : ℕ) → Gives IndexRefusal.NoMemory
        (λ list. list) result
        (whole_at (record {
          bytes = index.now;
          toc = toc.now;
          symbols = symbols.now;
          rows = rows.now;
          lists = part_of part.entry;
          symbols_size = symbols_size;
          rows_size = rows_size;
        })) }
{
    let numbers = list_of(alloc, part, rows, "", "")?;
    test_present(toc, numbers.members())?;
    let all = all_series(alloc, index, symbols, numbers.members())?;
    test_lists(toc, part, rows, all.series.as_slice())?;
    match differing_place(alloc, part, rows, symbols, numbers.members(), &all)? {
        None => Ok(List::from_vec(all.series)),
        Some(place) => Err(IndexRefusal::PostingsDiffer(place as u32)),
    }
}

/// Copies of series, which lend nothing.
fn copies_of(alloc: Global, series: &[LentSeries<'_>]) -> Result<IndexSeriesList, NoMemory>
    ensures { IfOk result (λ copies. copies ≡ series.now) }
{
    let mut copies = Vec::with_capacity(alloc, series.len())?;
    for one in series {
        let copy = one.to_series(alloc)?;
        copies.push(copy)?;
    }
    Ok(List::from_vec(copies))
}

/// Reads every series as `whole_lent` does, and copies them.
pub(crate) fn whole(
    alloc: Global,
    index: &[u8],
    toc: &Toc,
    symbols: &Symbols<'_>,
    rows: &Rows<'_>,
    part: IndexPart<'_>,
) -> Result<IndexSeriesList, IndexRefusal>
    requires { part.begin + length part.bytes.now < 2 ^ 64 }
    ensures { (symbols_size rows_size : ℕ) → Gives IndexRefusal.NoMemory
        (λ list. list) result
        (whole_at (record {
          bytes = index.now;
          toc = toc.now;
          symbols = symbols.now;
          rows = rows.now;
          lists = part_of part.entry;
          symbols_size = symbols_size;
          rows_size = rows_size;
        })) }
{
    match whole_lent(alloc, index, toc, symbols, rows, part) {
        Ok(series) => Ok(copies_of(alloc, series.members())?),
        Err(refusal) => Err(refusal),
    }
}

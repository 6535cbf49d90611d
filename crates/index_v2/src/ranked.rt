//! Series with the ranks of their labels. The numbers of symbols are read a second time, as only the test of a whole
//! index wants them.

ghost use Rattle.std.specs.Prelude.{◌≡◌, ◌+◌, ◌*◌, ◌-◌, ◌^◌, ◌<◌, IfOk, nat_lt, if◌then◌else◌};
ghost use Rattle.base.specs.Reading.{Gives};
ghost use Rattle.index_v2.specs.Ranks.{AreSymbols, IsRanked, rank_of, ranks_of, ranks_at, series_ranks_at};
ghost use Rattle.index_v2.specs.SeriesLabels.{numbered_at};

use crate::opening::refused_of;
use crate::ranks::{RankList, Ranks};
use crate::symbols::Symbols;
use crate::{IndexRefusal, LentSeries};
use index_parts::{PartRefusal, RawLabel, SERIES_UNIT, before_labels, next_label};
use std::alloc::Global;
use wire_bytes::Cursor;

/// A series, and the ranks of its labels.
#[derive(Drop)]
pub(crate) struct RankedSeries<'a> {
    pub(crate) series: LentSeries<'a>,
    pub(crate) ranks: RankList,
}

/// The rank of a symbol of this number. Symbols have numbers of 32 bits.
fn rank_of(number: u64) -> u64
    ensures { result ≡ rank_of number }
{
    if number < 1 << 32 {
        2 * number + 1
    } else {
        u64::MAX
    }
}

fn ranks_of(label: RawLabel) -> Ranks
    ensures { result ≡ ranks_of label }
{
    Ranks {
        name: rank_of(label.name.number),
        value: rank_of(label.value.number),
    }
}

/// The ranks of the next labels, so many, in an index with so many symbols. For no more than these there is room at once.
fn ranks_at(
    alloc: Global,
    count: u64,
    symbols: usize,
    cursor: Cursor<'_>,
) -> Result<RankList, PartRefusal>
    ensures { Gives PartRefusal.NoMemory (λ ranks. ranks) result (ranks_at count cursor.entry) }
{
    let room = count.min(symbols as u64) as usize;
    let mut ranks = Vec::with_capacity(alloc, room)?;
    let mut rest = cursor;
    for _ in 0..count {
        let (label, after) = next_label(rest)?;
        ranks.push(ranks_of(label))?;
        rest = after;
    }
    Ok(RankList::from_vec(ranks))
}

/// The ranks of the labels of the series at a place, in an index with so many symbols.
#[tactic(auto, unfolding(crate::specs::Ranks::series_ranks_at))]
fn series_ranks(
    alloc: Global,
    index: &[u8],
    symbols: usize,
    at: u64,
) -> Result<RankList, PartRefusal>
    ensures { Gives PartRefusal.NoMemory (λ ranks. ranks) result (series_ranks_at index.now at) }
{
    let (count, cursor) = before_labels(index, at)?;
    ranks_at(alloc, count, symbols, cursor)
}

/// Reads the series of a number, and the ranks of its labels.
pub(crate) fn ranked_series<'a>(
    alloc: Global,
    index: &[u8],
    symbols: &Symbols<'a>,
    number: u64,
) -> Result<RankedSeries<'a>, IndexRefusal>
    requires { number < 2 ^ 32 }
    ensures exact { Gives IndexRefusal.NoMemory
        (λ one. one.series) result (numbered_at index.now symbols.now number) }
    ensures ranked { IfOk result (λ one. IsRanked symbols.now one.series one.ranks) }
    ensures symbols { AreSymbols symbols.now }
{
    let at = SERIES_UNIT * number;
    let count = symbols.len();
    match LentSeries::read(index, symbols, at, LentSeries::new(alloc)) {
        Ok(series) => match series_ranks(alloc, index, count, at) {
            Ok(ranks) => Ok(RankedSeries { series, ranks }),
            Err(refusal) => Err(refused_of(number as u32, refusal)),
        },
        Err(refusal) => Err(refused_of(number as u32, refusal)),
    }
}

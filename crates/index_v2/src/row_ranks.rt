//! The ranks of the rows of a postings table. Each text of a row is looked up among the symbols once, near where the one
//! before it was found.

ghost use Rattle.std.specs.Prelude.{◌≡◌, ◌+◌, ◌*◌, true, IfOk};
ghost use Rattle.index_parts.specs.declared.postings_row.PostingsRow.{PostingsRow};
ghost use Rattle.index_parts.specs.Rows.{compare_rows};
ghost use Rattle.std.specs.List.Sorted.{IsStrictlySortedBy};
ghost use Rattle.index_v2.specs.Ranks.{IsRankOf, IsRowRank, AreRowRanks};

use crate::ranks::Ranks;
use crate::symbols::Symbols;
use base::NoMemory;
use index_parts::Rows;
use std::alloc::Global;
use std::cmp::Ordering;

/// Whether the symbol of a number is this text.
fn is_symbol(symbols: &Symbols<'_>, number: usize, text: &str) -> bool
    ensures { result ≡ true → IsRankOf symbols.now text.now (2 * number + 1) }
{
    match symbols.get(number as u64) {
        Some(symbol) => symbol == text,
        None => false,
    }
}

/// The rank of a text.
fn rank_of(symbols: &Symbols<'_>, text: &str) -> u64
    ensures { IsRankOf symbols.now text.now result }
{
    let mut low = 0;
    let mut high = symbols.len();
    while low < high {
        let middle = low + (high - low) / 2;
        let Some(symbol) = symbols.get(middle as u64) else {
            return 2 * low as u64;
        };
        match symbol.cmp(text) {
            Ordering::Less => low = middle + 1,
            Ordering::Equal => return 2 * middle as u64 + 1,
            Ordering::Greater => high = middle,
        }
    }
    2 * low as u64
}

/// The rank of a text, which is looked for at a symbol's number first.
fn rank_near(symbols: &Symbols<'_>, text: &str, number: u64) -> u64
    ensures { IsRankOf symbols.now text.now result }
{
    if number < symbols.len() as u64 && is_symbol(symbols, number as usize, text) {
        return 2 * number + 1;
    }
    rank_of(symbols, text)
}

/// The ranks of a row, probably near those of another one.
fn row_ranks(symbols: &Symbols<'_>, row: (&str, &str, u64), near: Ranks) -> Ranks
    ensures { IsRowRank symbols.now
        (record { name = row.entry.0.now; value = row.entry.1.now; offset = row.entry.2 })
        result }
{
    Ranks {
        name: rank_near(symbols, row.0, near.name / 2),
        value: rank_near(symbols, row.1, near.value / 2 + 1),
    }
}

/// The ranks of all rows.
pub(crate) fn rows_ranks(
    alloc: Global,
    symbols: &Symbols<'_>,
    rows: &Rows<'_>,
) -> Result<Vec<Ranks>, NoMemory>
    requires { IsStrictlySortedBy compare_rows rows.now }
    ensures { IfOk result (λ ranks. AreRowRanks symbols.now rows.now ranks.items) }
{
    let mut ranks = Vec::new(alloc);
    let mut last = Ranks { name: 0, value: 0 };
    for place in 0..rows.len() {
        let Some(row) = rows.get(place) else {
            return Ok(ranks);
        };
        last = row_ranks(symbols, row, last);
        ranks.push(last)?;
    }
    Ok(ranks)
}

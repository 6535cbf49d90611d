//! The series of a number, in a whole index or in a part of one. What is copied of a series is bounded by its own bytes,
//! so a number that a hostile list gives costs no more than that.

ghost use Rattle.std.specs.Prelude.{◌≡◌, ◌⊎◌, ◌+◌, ◌-◌, ◌*◌, ◌^◌, ◌<◌, ◌≤◌, ℕ, List, length, IfOk, Ok, Err};
ghost use Rattle.std.specs.Result.{IsOkAnd};
ghost use Rattle.base.specs.Reading.{Gives};
ghost use Rattle.base.specs.Grammar.{IsBytes};
ghost use Rattle.index_parts.specs.declared.index_series.IndexSeries.{IndexSeries};
ghost use Rattle.wire_bytes.specs.Fields.{uvarint_at};
ghost use Rattle.wire_bytes.specs.declared.varint.WireRefusal.TheVariants.{Overlong};
ghost use Rattle.index_parts.specs.Placed.{at_place};
ghost use Rattle.index_parts.specs.declared.refusal.PartRefusal.TheVariants.{Short};
ghost use Rattle.index_parts.specs.IndexFile.{IsSeriesOf, series_unit};
ghost use Rattle.index_parts.specs.Parts.{part_of, known, IsPartOf, HoldsSeries};
ghost use Rattle.index_v2.specs.SeriesLabels.{labelled_at, numbered_at};

use crate::opening::refused_of;
use crate::symbols::Symbols;
use crate::{IndexRefusal, IndexSeries, LentSeries};
use index_parts::{IndexPart, PartRefusal, SERIES_UNIT, shifted_refusal};
use std::alloc::Global;

#[inline(always)]
fn lent_at<'a>(
    index: &[u8],
    symbols: &Symbols<'a>,
    number: u32,
    room: LentSeries<'a>,
) -> Result<LentSeries<'a>, IndexRefusal>
    ensures bytes { IsBytes index.now }
    ensures exact { Gives IndexRefusal.NoMemory
        (λ series. series) result (numbered_at index.now symbols.now number) }
{
    match LentSeries::read(index, symbols, SERIES_UNIT * u64::from(number), room) {
        Ok(series) => Ok(series),
        Err(refusal) => Err(refused_of(number, refusal)),
    }
}

/// Reads the series of a number into the room of another.
#[inline(always)]
pub(crate) fn lent_series_of<'a>(
    index: &[u8],
    symbols: &Symbols<'a>,
    number: u32,
    room: LentSeries<'a>,
) -> Result<LentSeries<'a>, IndexRefusal>
    ensures found { IfOk result (λ series. IsSeriesOf index.now symbols.now number series) }
    ensures only { (series : IndexSeries) → IsSeriesOf index.now symbols.now number series
        → IsOkAnd result (λ found. found ≡ series) ⊎ (result ≡ Err IndexRefusal.NoMemory) }
    ensures exact { Gives IndexRefusal.NoMemory
        (λ series. series) result (numbered_at index.now symbols.now number) }
{
    lent_at(index, symbols, number, room)
}

/// Reads the series at a place of the index, and copies its texts.
fn series_at(
    alloc: Global,
    index: &[u8],
    symbols: &Symbols<'_>,
    at: u64,
) -> Result<IndexSeries, PartRefusal>
    ensures bytes { IsBytes index.now }
    ensures exact { Gives PartRefusal.NoMemory
        (λ series. series) result (labelled_at index.now symbols.now at) }
{
    match LentSeries::read(index, symbols, at, LentSeries::new(alloc)) {
        Ok(series) => Ok(series.to_series(alloc)?),
        Err(refusal) => Err(refusal),
    }
}

/// Reads the series of a number in a part of an index.
pub(crate) fn series_of(
    alloc: Global,
    part: IndexPart<'_>,
    symbols: &Symbols<'_>,
    number: u32,
) -> Result<IndexSeries, IndexRefusal>
    requires begins { part.begin ≤ series_unit * number }
    requires fits { part.begin + length part.bytes.now < 2 ^ 64 }
    ensures found { (index : List ℕ) → IsPartOf (part_of part.entry) index
        → IfOk result (λ series. IsSeriesOf index symbols.now number series) }
    ensures same { (index : List ℕ) → IsPartOf (part_of part.entry) index
        → HoldsSeries (part_of part.entry) (series_unit * number)
        → Gives IndexRefusal.NoMemory
        (λ series. series) result (numbered_at index symbols.now number) }
    ensures outside { (HoldsSeries (part_of part.entry) (series_unit * number) → ⊥)
        → (uvarint_at (at_place part.entry.bytes.now (series_unit * number - part.entry.begin))
        ≡ Err Overlong → ⊥)
        → (result ≡ Err (IndexRefusal.BadSeries number (Short (series_unit * number))))
        ⊎ (result ≡ Err IndexRefusal.NoMemory) }
    ensures exact { Gives IndexRefusal.NoMemory
        (λ series. series) result (numbered_at (known (part_of part.entry)) symbols.now number) }
    ensures few { IfOk result (λ series.
        2 * length series.labels + 3 * length series.chunks ≤ length part.entry.bytes.now) }
{
    match series_at(
        alloc,
        part.bytes,
        symbols,
        SERIES_UNIT * u64::from(number) - part.begin,
    ) {
        Ok(series) => Ok(series),
        Err(refusal) => Err(refused_of(number, shifted_refusal(refusal, part.begin))),
    }
}

/// Reads the series of a number in a whole file.
pub(crate) fn series_of_file(
    alloc: Global,
    index: &[u8],
    symbols: &Symbols<'_>,
    number: u32,
) -> Result<IndexSeries, IndexRefusal>
    ensures found { IfOk result (λ series. IsSeriesOf index.now symbols.now number series) }
    ensures only { (series : IndexSeries) → IsSeriesOf index.now symbols.now number series
        → (result ≡ Ok series) ⊎ (result ≡ Err IndexRefusal.NoMemory) }
    ensures exact { Gives IndexRefusal.NoMemory
        (λ series. series) result (numbered_at index.now symbols.now number) }
{
    let file = IndexPart {
        begin: 0,
        bytes: index,
    };
    series_of(alloc, file, symbols, number)
}

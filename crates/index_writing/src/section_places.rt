//! Where the sections of an index come to stand: a series at a multiple of sixteen bytes, a list at one of four. Each
//! step refuses an index that is too long already, so that no more memory goes into it.

ghost use Rattle.std.specs.Prelude.{◌≡◌, ◌++◌, ◌∷◌, ◌+◌, ◌-◌, ◌/◌, ◌%◌, ◌*◌, ◌<◌, ◌≤◌, ◌^◌, map, length, replicate, IfOk, OnOk, OnErr, IfErr, MatchResult, List, ℕ};
ghost use Rattle.std.specs.List.{All, AllByRecursion, sum_by};
ghost use Rattle.index_parts.specs.Turns.{InOrder};
ghost use Rattle.index_parts.specs.LabelIndices.{label_index_text};
ghost use Rattle.index_parts.specs.Postings.{postings_text};
ghost use Rattle.index_parts.specs.SeriesEntry.{IsSeries, StartsAfter, series_text};
ghost use Rattle.index_parts.specs.IndexFile.{series_unit};
ghost use Rattle.index_writing.specs.declared.label_groups.LabelRow.{LabelRow};
ghost use Rattle.index_writing.specs.Aligned.{gap, padded, each_at, places_at};
ghost use Rattle.index_writing.specs.WriteSteps.{greatest, Makes, IsStorable, EachStands, most_numbers};
ghost use Rattle.index_writing.specs.Written.{up_to_series, numbers_behind, label_index_texts, list_texts, list_unit};

use crate::label_groups::{LabelRow, NameValues};
use crate::{IndexWriteRefusal, write_label_index, write_postings, write_series};
use base::NoMemory;
use index_parts::{RawSeries, SERIES_UNIT};
use wire_bytes::{FILE_LIMIT, NumberList, put_bytes};

/// The greatest length of an index.
pub(crate) const GREATEST: usize = FILE_LIMIT;

/// A series stands at a multiple of so many bytes, and a list at one of so many.
const SERIES_BYTES: usize = SERIES_UNIT as usize;

const LIST_UNIT: usize = 4;

/// How many numbers a section may have.
const MOST_NUMBERS: usize = 1 << 24;

/// Refuses a text that is too long already.
pub(crate) fn test_size(out: &Vec<u8>) -> Result<(), IndexWriteRefusal>
    ensures { Makes result out.now.items out.now.items }
{
    if out.len() > GREATEST {
        return Err(IndexWriteRefusal::TooLarge);
    }
    Ok(())
}

/// Refuses a section whose numbers are too many for an index.
fn test_count(count: usize) -> Result<(), IndexWriteRefusal>
    ensures { MatchResult result (λ _. count ≤ most_numbers)
        (λ e. (e ≡ IndexWriteRefusal.TooLarge) × (most_numbers < count)) }
{
    if count > MOST_NUMBERS {
        return Err(IndexWriteRefusal::TooLarge);
    }
    Ok(())
}

/// Appends zero bytes up to the next multiple.
#[tactic(auto, unfolding(crate::specs::Aligned::padded))]
fn pad(out: &mut Vec<u8>, unit: usize) -> Result<(), NoMemory>
    requires positive { 0 < unit }
    requires small { unit ≤ series_unit }
    requires room { length out.old.items ≤ greatest }
    ensures { OnOk result (out.new.items ≡ padded unit out.old.items) }
{
    let size = out.len();
    let gap = (unit - size % unit) % unit;
    out.resize(size + gap, 0)?;
    Ok(())
}

/// Appends a series at the next place, and gives its number.
fn put_series(out: &mut Vec<u8>, series: &RawSeries) -> Result<u64, IndexWriteRefusal>
    requires room { length out.old.items ≤ greatest }
    requires as_many { length series.now.names ≡ length series.now.values }
    requires chunks { InOrder StartsAfter series.now.chunks }
    ensures makes { Makes result out.new.items
        (padded series_unit out.old.items ++ series_text series.now) }
    ensures stands { (after : List ℕ)
        → OnOk result
        (IsSeries (out.new.items ++ after) (length (padded series_unit out.old.items)) series.now) }
    ensures number { IfOk result
        (λ number. number ≡ length (padded series_unit out.old.items) / series_unit) }
{
    pad(out, SERIES_BYTES)?;
    let number = (out.len() / SERIES_BYTES) as u64;
    write_series(out, series)?;
    test_size(out)?;
    Ok(number)
}

/// Appends all series, and gives their numbers.
pub(crate) fn put_all_series(
    out: &mut Vec<u8>,
    series: &[RawSeries],
) -> Result<NumberList, IndexWriteRefusal>
    requires room { length out.old.items ≤ greatest }
    requires lawful { AllByRecursion IsStorable series.now }
    ensures makes { Makes result out.new.items (up_to_series out.old.items series.now) }
    ensures numbers { IfOk result (λ numbers. numbers ≡ numbers_behind out.old.items series.now) }
    ensures stand { IfOk result (λ numbers. EachStands out.new.items numbers series.now) }
{
    let mut numbers = NumberList::new(*out.allocator());
    for one in series {
        numbers.push(put_series(out, one)?)?;
    }
    Ok(numbers)
}

/// Appends zero bytes up to the next place of a section of so many numbers, and gives the place.
fn begin_section(out: &mut Vec<u8>, count: usize) -> Result<u64, IndexWriteRefusal>
    requires room { length out.old.items ≤ greatest }
    ensures few { OnOk result (count ≤ most_numbers) }
    ensures begun { OnOk result (out.new.items ≡ padded list_unit out.old.items) }
    ensures place { IfOk result (λ place. place ≡ length (padded list_unit out.old.items)) }
    ensures large { IfErr result (λ e. e ≡ IndexWriteRefusal.TooLarge → most_numbers < count) }
{
    test_count(count)?;
    pad(out, LIST_UNIT)?;
    Ok(out.len() as u64)
}

/// Appends a label index at the next place, and gives the place.
fn put_label_index(out: &mut Vec<u8>, values: &NumberList) -> Result<u64, IndexWriteRefusal>
    requires room { length out.old.items ≤ greatest }
    requires small { All (λ number. number < 2 ^ 32) values.now }
    ensures makes { Makes result out.new.items
        (padded list_unit out.old.items ++ label_index_text values.now) }
    ensures place { IfOk result (λ place. place ≡ length (padded list_unit out.old.items)) }
{
    let place = begin_section(out, values.len())?;
    write_label_index(out, values)?;
    test_size(out)?;
    Ok(place)
}

/// Appends the label indices of all names, and gives their places.
pub(crate) fn put_label_indices(
    out: &mut Vec<u8>,
    names: &[NameValues],
) -> Result<NumberList, IndexWriteRefusal>
    requires room { length out.old.items ≤ greatest }
    requires small { AllByRecursion
        (λ name. All (λ number. number < 2 ^ 32) name.values) names.now }
    ensures makes { Makes result out.new.items
        (each_at list_unit out.old.items (label_index_texts names.now)) }
    ensures places { IfOk result
        (λ places. places ≡ places_at list_unit out.old.items (label_index_texts names.now)) }
{
    let mut places = NumberList::new(*out.allocator());
    for name in names {
        places.push(put_label_index(out, &name.values)?)?;
    }
    Ok(places)
}

/// Appends a postings list at the next place, and gives the place.
fn put_list(out: &mut Vec<u8>, numbers: &NumberList) -> Result<u64, IndexWriteRefusal>
    requires room { length out.old.items ≤ greatest }
    requires small { All (λ number. number < 2 ^ 32) numbers.now }
    ensures makes { Makes result out.new.items
        (padded list_unit out.old.items ++ postings_text numbers.now) }
    ensures place { IfOk result (λ place. place ≡ length (padded list_unit out.old.items)) }
{
    let place = begin_section(out, numbers.len())?;
    write_postings(out, numbers)?;
    test_size(out)?;
    Ok(place)
}

/// Appends the postings lists of all rows behind those that stand already.
fn put_row_lists(
    out: &mut Vec<u8>,
    rows: &[LabelRow],
    first: u64,
) -> Result<NumberList, IndexWriteRefusal>
    requires room { length out.old.items ≤ greatest }
    requires small { AllByRecursion (λ row. All (λ number. number < 2 ^ 32) row.series) rows.now }
    ensures makes { Makes result out.new.items
        (each_at list_unit out.old.items (map (λ row. postings_text row.series) rows.now)) }
    ensures places { IfOk result
        (λ places. places
        ≡ first ∷ places_at list_unit out.old.items
        (map (λ row. postings_text row.series) rows.now)) }
{
    let mut places = NumberList::new(*out.allocator());
    places.push(first)?;
    for row in rows {
        places.push(put_list(out, &row.series)?)?;
    }
    Ok(places)
}

/// Appends the postings lists, that of all series and that of each label, and gives their places.
pub(crate) fn put_lists(
    out: &mut Vec<u8>,
    numbers: &NumberList,
    rows: &[LabelRow],
) -> Result<NumberList, IndexWriteRefusal>
    requires room { length out.old.items ≤ greatest }
    requires all_small { All (λ number. number < 2 ^ 32) numbers.now }
    requires small { AllByRecursion (λ row. All (λ number. number < 2 ^ 32) row.series) rows.now }
    ensures makes { Makes result out.new.items
        (each_at list_unit out.old.items (list_texts numbers.now rows.now)) }
    ensures places { IfOk result
        (λ places. places ≡ places_at list_unit out.old.items (list_texts numbers.now rows.now)) }
{
    let first = put_list(out, numbers)?;
    put_row_lists(out, rows, first)
}

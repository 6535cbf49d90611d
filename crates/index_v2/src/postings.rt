//! What is asked of the postings table: the list of a label, and the values of a name. A label without a row has no
//! series: its list is empty, and nothing is refused.

ghost use Rattle.std.specs.Prelude.{◌≡◌, ◌⊎◌, ◌+◌, ◌*◌, ◌^◌, ◌<◌, ◌≤◌, ℕ, List, All, length, IfOk, Ok, Err, Some};
ghost use Rattle.base.specs.Reading.{Gives, refused_as};
ghost use Rattle.index_parts.specs.Parts.{part_of, file, list_in, IsPartOf, HoldsSection};
ghost use Rattle.index_parts.specs.Postings.{IsPostings};
ghost use Rattle.index_parts.specs.PostingsReading.{postings_at};
ghost use Rattle.index_parts.specs.declared.postings_row.PostingsRow.{PostingsRow};
ghost use Rattle.index_parts.specs.declared.refusal.PartRefusal.TheVariants.{Short};
ghost use Rattle.index_v2.specs.Opening.{refused_in, postings_section};
ghost use Rattle.index_parts.specs.Rows.{compare_rows};
ghost use Rattle.std.specs.List.Sorted.{IsStrictlyIncreasing, IsStrictlySortedBy};
ghost use Rattle.index_v2.specs.PostingsLists.{row_of, list_of, values_of};

use crate::IndexRefusal;
use crate::opening::refused_in;
use base::NoMemory;
use index_parts::{IndexPart, Rows, postings_in};
use label_sets::{Text, TextList};
use std::alloc::Global;
use wire_bytes::NumberList;

/// The number of the section of postings lists.
pub(crate) const POSTINGS: u8 = 5;

/// The postings list at a place of the index.
pub(crate) fn list_at(
    alloc: Global,
    part: IndexPart<'_>,
    at: u64,
) -> Result<NumberList, IndexRefusal>
    requires { part.begin + length part.bytes.now < 2 ^ 64 }
    ensures rise { IfOk result IsStrictlyIncreasing }
    ensures small { IfOk result (All (λ n. n < 2 ^ 32)) }
    ensures few { IfOk result (λ numbers. 4 * length numbers ≤ length part.entry.bytes.now) }
    ensures found { (index : List ℕ) → IsPartOf (part_of part.entry) index
        → IfOk result (λ numbers. IsPostings index at numbers) }
    ensures same { (index : List ℕ) → IsPartOf (part_of part.entry) index
        → HoldsSection (part_of part.entry) at
        → Gives IndexRefusal.NoMemory
        (λ numbers. numbers) result
        (refused_as (refused_in postings_section) (postings_at index at)) }
    ensures outside { (HoldsSection (part_of part.entry) at → ⊥)
        → (result ≡ Err (IndexRefusal.BadSection postings_section (Short at)))
        ⊎ (result ≡ Err IndexRefusal.NoMemory) }
    ensures exact { Gives IndexRefusal.NoMemory
        (λ numbers. numbers) result
        (refused_as (refused_in postings_section) (list_in (part_of part.entry) at)) }
{
    match postings_in(alloc, part, at) {
        Ok(numbers) => Ok(numbers),
        Err(refusal) => Err(refused_in(POSTINGS, refusal)),
    }
}

/// The postings list of a name and a value, which is empty where the table has no such row.
pub(crate) fn list_of(
    alloc: Global,
    part: IndexPart<'_>,
    rows: &Rows<'_>,
    name: &str,
    value: &str,
) -> Result<NumberList, IndexRefusal>
    requires { part.begin + length part.bytes.now < 2 ^ 64 }
    ensures ascending { IsStrictlySortedBy compare_rows rows.now }
    ensures rise { IfOk result IsStrictlyIncreasing }
    ensures small { IfOk result (All (λ n. n < 2 ^ 32)) }
    ensures few { IfOk result (λ numbers. 4 * length numbers ≤ length part.entry.bytes.now) }
    ensures found { (index : List ℕ) → IsPartOf (part_of part.entry) index
        → IfOk result (λ numbers.
        list_of (file index) (row_of rows.now name.now value.now) ≡ Ok numbers) }
    ensures same { (index : List ℕ) → IsPartOf (part_of part.entry) index
        → ((row : PostingsRow) → row_of rows.now name.now value.now ≡ Some row
        → HoldsSection (part_of part.entry) row.offset)
        → Gives IndexRefusal.NoMemory
        (λ numbers. numbers) result
        (list_of (file index) (row_of rows.now name.now value.now)) }
    ensures outside { (row : PostingsRow) → row_of rows.now name.now value.now ≡ Some row
        → (HoldsSection (part_of part.entry) row.offset → ⊥)
        → (result ≡ Err (IndexRefusal.BadSection postings_section (Short row.offset)))
        ⊎ (result ≡ Err IndexRefusal.NoMemory) }
    ensures exact { Gives IndexRefusal.NoMemory
        (λ numbers. numbers) result
        (list_of (part_of part.entry) (row_of rows.now name.now value.now)) }
{
    match rows.place_of(name, value) {
        Ok(place) => match rows.get(place) {
            Some(row) => list_at(alloc, part, row.2),
            None => Ok(NumberList::new(alloc)),
        },
        Err(_) => Ok(NumberList::new(alloc)),
    }
}

/// The values of the rows under a name.
pub(crate) fn values_of(alloc: Global, rows: &Rows<'_>, name: &str) -> Result<TextList, NoMemory>
    ensures { IfOk result (λ values. values ≡ values_of rows.now name.now) }
{
    let mut values = TextList::new(alloc);
    if name.is_empty() {
        return Ok(values);
    }
    for place in rows.first_of(name)..rows.len() {
        let Some(row) = rows.get(place) else {
            return Ok(values);
        };
        if row.0 != name {
            return Ok(values);
        }
        values.push(Text::from_str(alloc, row.1)?)?;
    }
    Ok(values)
}

//! Tables and lists out of some of an index's bytes, as a gateway gets them by ranges. What is read there stands so in
//! each index that has these bytes, and refusals count places of the whole index.

ghost use Rattle.std.specs.Prelude.{◌≡◌, ◌⊎◌, ◌+◌, ◌*◌, ◌^◌, ◌<◌, ◌≤◌, ℕ, List, length, IfOk, Err};
ghost use Rattle.base.specs.Reading.{Gives};
ghost use Rattle.index_parts.specs.Symbols.{IsSymbols};
ghost use Rattle.index_parts.specs.SymbolsReading.{symbols_at};
ghost use Rattle.index_parts.specs.Postings.{IsPostings};
ghost use Rattle.index_parts.specs.PostingsReading.{postings_at};
ghost use Rattle.index_parts.specs.Rows.{IsPostingsTable};
ghost use Rattle.index_parts.specs.RowsReading.{postings_table_at};
ghost use Rattle.index_parts.specs.Parts.{part_of, known, IsPartOf, HoldsSection, list_in};

use crate::{
    PartRefusal, PostingsTable, SymbolTable, read_postings, read_postings_table, read_symbols,
    shifted_refusal,
};
use std::alloc::Global;
use wire_bytes::NumberList;

/// Bytes of an index, by the place at which they begin. A whole file begins at 0.
#[derive(Clone, Copy)]
pub struct IndexPart<'a> {
    pub begin: u64,
    pub bytes: &'a [u8],
}

/// Reads the symbol table at a place of the index.
pub fn symbols_in<'a>(
    alloc: Global,
    part: IndexPart<'a>,
    at: u64,
) -> Result<SymbolTable<'a>, PartRefusal>
    requires begins { part.begin ≤ at }
    requires fits { part.begin + length part.bytes.now < 2 ^ 64 }

    // What is read stands so in each index of which this is a part.
    ensures found { (index : List ℕ) → IsPartOf (part_of part.entry) index
        → IfOk result (λ table. IsSymbols index at table) }

    // A table that ends within the part is read, or refused, as in the index.
    ensures same { (index : List ℕ) → IsPartOf (part_of part.entry) index
        → HoldsSection (part_of part.entry) at
        → Gives PartRefusal.NoMemory (λ table. table) result (symbols_at index at) }

    // The first refusal: nothing stands behind the part.
    ensures exact { Gives PartRefusal.NoMemory (λ table. table) result
        (symbols_at (known (part_of part.entry)) at) }
    ensures few { IfOk result (λ table. length table ≤ length part.entry.bytes.now) }
{
    match read_symbols(alloc, part.bytes, at - part.begin) {
        Ok(table) => Ok(table),
        Err(refusal) => Err(shifted_refusal(refusal, part.begin)),
    }
}

/// Reads the postings table at a place of the index.
pub fn postings_table_in<'a>(
    alloc: Global,
    part: IndexPart<'a>,
    at: u64,
) -> Result<PostingsTable<'a>, PartRefusal>
    requires begins { part.begin ≤ at }
    requires fits { part.begin + length part.bytes.now < 2 ^ 64 }

    // What is read stands so in each index of which this is a part.
    ensures found { (index : List ℕ) → IsPartOf (part_of part.entry) index
        → IfOk result (λ table. IsPostingsTable index at table) }

    // A table that ends within the part is read, or refused, as in the index.
    ensures same { (index : List ℕ) → IsPartOf (part_of part.entry) index
        → HoldsSection (part_of part.entry) at
        → Gives PartRefusal.NoMemory (λ table. table) result (postings_table_at index at) }

    // The first refusal: nothing stands behind the part.
    ensures exact { Gives PartRefusal.NoMemory (λ table. table) result
        (postings_table_at (known (part_of part.entry)) at) }
    ensures few { IfOk result (λ table. 4 * length table ≤ length part.entry.bytes.now) }
{
    match read_postings_table(alloc, part.bytes, at - part.begin) {
        Ok(table) => Ok(table),
        Err(refusal) => Err(shifted_refusal(refusal, part.begin)),
    }
}

/// Reads the postings list at a place of the index, which may stand before the part or behind it.
pub fn postings_in(alloc: Global, part: IndexPart<'_>, at: u64) -> Result<NumberList, PartRefusal>
    requires fits { part.begin + length part.bytes.now < 2 ^ 64 }

    // What is read stands so in each index of which this is a part.
    ensures found { (index : List ℕ) → IsPartOf (part_of part.entry) index
        → IfOk result (λ numbers. IsPostings index at numbers) }

    // A list that lies within the part is read, or refused, as in the index; any other is not there.
    ensures same { (index : List ℕ) → IsPartOf (part_of part.entry) index
        → HoldsSection (part_of part.entry) at
        → Gives PartRefusal.NoMemory (λ numbers. numbers) result (postings_at index at) }
    ensures outside { (HoldsSection (part_of part.entry) at → ⊥)
        → (result ≡ Err (PartRefusal.Short at)) ⊎ (result ≡ Err PartRefusal.NoMemory) }

    // The first refusal: nothing stands before the part, and nothing behind it.
    ensures exact { Gives PartRefusal.NoMemory (λ numbers. numbers) result
        (list_in (part_of part.entry) at) }
    ensures few { IfOk result (λ numbers. 4 * length numbers ≤ length part.entry.bytes.now) }
{
    if at < part.begin {
        return Err(PartRefusal::Short(at));
    }
    match read_postings(alloc, part.bytes, at - part.begin) {
        Ok(numbers) => Ok(numbers),
        Err(refusal) => Err(shifted_refusal(refusal, part.begin)),
    }
}

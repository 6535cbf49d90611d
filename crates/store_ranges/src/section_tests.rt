//! Sections of an index, by the bytes that were read of it.
ghost use Rattle.std.specs.Prelude.{◌+◌, ◌^◌, ◌<◌, length, IfOk};
ghost use Rattle.index_parts.specs.SymbolsReading.{symbols_at};
ghost use Rattle.index_parts.specs.RowsReading.{postings_table_at};
ghost use Rattle.index_parts.specs.Parts.{known};
ghost use Rattle.store_ranges.specs.IndexReads.{part_at};
ghost use Rattle.store_ranges.specs.Asking.{piece_of};
ghost use Rattle.store_ranges.specs.Findings.{ReadsAs, Tells};

use crate::ByteRange;
use crate::symbol_texts::SymbolTexts;
use base::NoMemory;
use index_parts::{IndexPart, PartRefusal, postings_table_in, symbols_in};
use std::alloc::Global;

/// The symbols with which the bytes of a range begin. None where they are refused.
pub fn symbols_of(
    alloc: Global,
    range: ByteRange,
    bytes: &[u8],
) -> Result<Option<SymbolTexts>, NoMemory>
    requires { range.from + length bytes.now < 2 ^ 64 }
    ensures { IfOk result (ReadsAs (λ symbols. symbols)
        (symbols_at (known (part_at (piece_of range) bytes.now)) range.from)) }
{
    let part = IndexPart {
        begin: range.from,
        bytes,
    };
    match symbols_in(alloc, part, range.from) {
        Ok(table) => Ok(Some(SymbolTexts::of_table(alloc, &table)?)),
        Err(PartRefusal::NoMemory) => Err(NoMemory),
        Err(_) => Ok(None),
    }
}

/// Whether the bytes of a range begin with a postings table.
pub fn is_table(alloc: Global, range: ByteRange, bytes: &[u8]) -> Result<bool, NoMemory>
    requires { range.from + length bytes.now < 2 ^ 64 }
    ensures { IfOk result
        (Tells (postings_table_at (known (part_at (piece_of range) bytes.now)) range.from)) }
{
    let part = IndexPart {
        begin: range.from,
        bytes,
    };
    match postings_table_in(alloc, part, range.from) {
        Ok(_) => Ok(true),
        Err(PartRefusal::NoMemory) => Err(NoMemory),
        Err(_) => Ok(false),
    }
}

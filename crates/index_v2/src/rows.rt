ghost use Rattle.std.specs.Prelude.{◌≡◌, ◌+◌, ◌*◌, ◌≤◌, ◌<◌, ◌^◌, ℕ, List, length, IfOk};
ghost use Rattle.base.specs.Reading.{Gives};
ghost use Rattle.index_parts.specs.Rows.{IsPostingsTable};
ghost use Rattle.index_parts.specs.RowsReading.{postings_table_at};
ghost use Rattle.index_parts.specs.Parts.{part_of, known, IsPartOf};
ghost use Rattle.index_parts.specs.IndexFile.{Holds};
ghost use Rattle.index_v2.specs.Opening.{held_at, table_section};

use crate::IndexRefusal;
use crate::opening::refused_in;
use index_parts::{IndexPart, Rows, postings_table_in};
use std::alloc::Global;

/// The number of the section of the postings table.
const POSTINGS_TABLE: u8 = 6;

/// Reads the rows at a reference.
pub(crate) fn rows_at<'a>(
    alloc: Global,
    part: IndexPart<'a>,
    reference: u64,
) -> Result<Rows<'a>, IndexRefusal>
    requires begins { part.begin ≤ reference }
    requires fits { part.begin + length part.bytes.now < 2 ^ 64 }
    ensures found { (index : List ℕ) → IsPartOf (part_of part.entry) index
        → IfOk result (λ rows. Holds IsPostingsTable index reference rows) }
    ensures exact { Gives IndexRefusal.NoMemory (λ rows. rows) result
        (held_at table_section postings_table_at (known (part_of part.entry)) reference) }
    ensures few { IfOk result (λ rows. 4 * length rows ≤ length part.entry.bytes.now) }
{
    if reference == 0 {
        return Ok(Rows::none());
    }
    match postings_table_in(alloc, part, reference) {
        Ok(table) => Ok(Rows::of_table(table)),
        Err(refusal) => Err(refused_in(POSTINGS_TABLE, refusal)),
    }
}

//! Where chunks stand.
ghost use Rattle.std.specs.Prelude.{◌≡◌, map, IfOk};
ghost use Rattle.index_parts.specs.SeriesEntry.{reference_of};
ghost use Rattle.store_ranges.specs.ChunkRanges.{IsSetOf};

use base::NoMemory;
use index_parts::{ChunkPlace, reference_of};
use std::alloc::Global;
use wire_bytes::NumberList;

/// The references of places, ascending and each once: by segment, and in a segment by their offset.
pub fn references_of(alloc: Global, places: &[ChunkPlace]) -> Result<NumberList, NoMemory>
    ensures { IfOk result (IsSetOf (map reference_of places.now)) }
{
    let mut references: Vec<u64> = Vec::new(alloc);
    for place in places {
        references.push(reference_of(*place))?;
    }
    references.sort()?;
    references.dedup();
    Ok(NumberList::from_vec(references))
}

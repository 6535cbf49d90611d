ghost use Rattle.std.specs.Prelude.{◌+◌, ◌^◌, ◌<◌, length};

use crate::indexes::reader_calls::print_reader;
use crate::says::show;
use index_parts::{Toc, read_toc};
use index_v2::{IndexParts, IndexReader};

/// Prints what a call gives on a reader over parts of an index: those that begin where the table of contents says, and end where
/// it says that another begins.
pub(crate) fn print_over(rt: &HostRuntime, index: &[u8], call: &str) {
    match read_toc(index) {
        Ok(toc) => {
            let parts = IndexParts {
                toc,
                size: index.len() as u64,
                symbols: part_from(index, &toc, toc.symbols),
                table: part_from(index, &toc, toc.postings_table),
                postings: part_from(index, &toc, toc.postings),
            };
            print_reader(rt, index, IndexReader::over(rt.alloc(), parts), call);
        }
        Err(refusal) => show(rt, &refusal),
    }
}

/// The bytes from a place on, up to the next one that the table of contents names, or up to the table itself.
fn part_from<'a>(index: &'a [u8], toc: &Toc, from: u64) -> &'a [u8]
    ensures { from + length result.now < 2 ^ 64 }
{
    let places = [
        toc.symbols,
        toc.series,
        toc.label_indices,
        toc.label_offsets,
        toc.postings,
        toc.postings_table,
    ];
    let mut end = (index.len() as u64).saturating_sub(52);
    for place in places {
        if place > from && place < end {
            end = place;
        }
    }
    if from > end || end > index.len() as u64 {
        return &index[..0];
    }
    &index[from as usize..end as usize]
}

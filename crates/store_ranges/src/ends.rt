//! Where the sections of an index end.
ghost use Rattle.std.specs.Prelude.{◌≡◌, ◌+◌, ◌^◌, ◌<◌, ◌≤◌, min, nat_lt, Option, Some, None};
ghost use Rattle.std.specs.List.{filter};
ghost use Rattle.index_parts.specs.Contents.{contents_size};
ghost use Rattle.store_ranges.specs.IndexRanges.{end_of, least, with_less, section_piece, has_sections};
ghost use Rattle.store_ranges.specs.Asking.{piece_of};

use crate::ByteRange;
use index_parts::{CONTENTS_SIZE, Toc};

/// How many bytes the table of contents has.
const CONTENTS: u64 = CONTENTS_SIZE as u64;

/// Whether symbols, series, postings lists and postings table are there, and each of those that are
/// read has bytes.
pub fn has_sections(toc: &Toc, size: u64) -> bool
    requires { contents_size ≤ size }
    ensures { result ≡ has_sections toc.now size }
{
    toc.symbols > 0
        && toc.series > 0
        && toc.postings > 0
        && toc.postings_table > 0
        && section_range(toc, size, toc.symbols).len > 0
        && section_range(toc, size, toc.postings_table).len > 0
        && section_range(toc, size, toc.postings).len > 0
}

/// The bytes of the section at a reference, in an index of so many bytes.
pub fn section_range(toc: &Toc, size: u64, place: u64) -> ByteRange
    requires { contents_size ≤ size }
    ensures value { piece_of result ≡ section_piece toc.now size place }
    ensures fits { result.from + result.len < 2 ^ 64 }
{
    ByteRange {
        from: place,
        len: end_of_place(toc, size, place).saturating_sub(place),
    }
}

/// The end of what stands at a place of an index of so many bytes: the least reference above it, or
/// the table of contents.
#[tactic(auto, unfolding(crate::specs::IndexRanges::end_of))]
pub fn end_of_place(toc: &Toc, size: u64, place: u64) -> u64
    requires { contents_size ≤ size }
    ensures { result ≡ end_of toc.now size place }
{
    let references = [
        toc.symbols,
        toc.series,
        toc.label_indices,
        toc.label_offsets,
        toc.postings,
        toc.postings_table,
    ];
    least_above(&references, place).unwrap_or(size - CONTENTS)
}

/// The least of the references above a place.
fn least_above(references: &[u64], place: u64) -> Option<u64>
    ensures { result ≡ least (filter (nat_lt place) references.now) }
{
    let mut least = None;
    for reference in references {
        if *reference > place {
            least = Some(lesser(least, *reference));
        }
    }
    least
}

/// The lesser of a number and another, if there is one.
fn lesser(least: Option<u64>, reference: u64) -> u64
    ensures { result ≡ with_less least reference }
{
    match least {
        Some(least) => least.min(reference),
        None => reference,
    }
}

//! What a writer asks of the series that it is given, as tests.
ghost use Rattle.std.specs.Prelude.{◌↔◌, IsTrue, Option, Some, None};
ghost use Rattle.index_parts.specs.Turns.{InOrder};
ghost use Rattle.index_parts.specs.SeriesEntry.{StartsAfter};
ghost use Rattle.index_writing.specs.Written.{IsBehind};

use index_parts::{ChunkPlace, IndexSeries};
use label_sets::LabelSet;
use std::cmp::Ordering;

/// The number of a chunk's file has 31 bits.
const SEGMENTS: u32 = 0x8000_0000;

/// Whether a chunk may stand behind another, or first.
fn starts_after(before: Option<ChunkPlace>, chunk: ChunkPlace) -> bool
    ensures { IsTrue result ↔ StartsAfter before chunk }
{
    if chunk.min > chunk.max || chunk.segment >= SEGMENTS {
        return false;
    }
    match before {
        None => true,
        Some(before) => before.max <= chunk.min && before.segment < SEGMENTS,
    }
}

/// Whether each chunk may stand behind the one before it, as `IndexWriter::add` asks.
pub fn are_in_order(chunks: &[ChunkPlace]) -> bool
    ensures { IsTrue result ↔ InOrder StartsAfter chunks.now }
{
    let mut before = None;
    for chunk in chunks {
        if !starts_after(before, *chunk) {
            return false;
        }
        before = Some(*chunk);
    }
    true
}

/// Whether labels are greater than those of the last series, if there is one.
pub(crate) fn is_behind(series: &[IndexSeries], labels: &LabelSet) -> bool
    ensures { IsTrue result ↔ IsBehind series.now labels.now }
{
    match series.last() {
        None => true,
        Some(last) => last.labels.compare(labels) == Ordering::Less,
    }
}

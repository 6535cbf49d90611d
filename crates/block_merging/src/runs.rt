//! How many of the chunks that come next are one run.
ghost use Rattle.std.specs.Prelude.{◌≡◌, ◌<◌, length, IsTrue, int_lt};
ghost use Rattle.std.specs.Int.{int_max};
ghost use Rattle.block_merging.specs.Placed.{AreByBegin, IsFirstRun};

use crate::placed_chunk::PlacedChunk;

fn begins_behind(one: &PlacedChunk<'_>, end: i64) -> bool
    ensures { result ≡ int_lt end one.now.chunk.min }
{
    end < one.chunk.min
}

fn later_end(one: &PlacedChunk<'_>, end: i64) -> i64
    ensures { result ≡ int_max end one.now.chunk.max }
{
    end.max(one.chunk.max)
}

fn end_of(one: &PlacedChunk<'_>) -> i64
    ensures { result ≡ one.now.chunk.max }
{
    one.chunk.max
}

/// How many of the first chunks are a run: all behind them begin after these end.
pub(crate) fn first_run(chunks: &[PlacedChunk<'_>]) -> usize
    requires some { 0 < length chunks.now }
    requires sorted { AreByBegin chunks.now }
    ensures { IsFirstRun chunks.now result }
{
    let mut end = end_of(&chunks[0]);
    for (place, one) in chunks.iter().enumerate() {
        if begins_behind(one, end) {
            return place;
        }
        end = later_end(one, end);
    }
    chunks.len()
}

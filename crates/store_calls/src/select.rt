//! Which blocks of a view a call reads, and the sources of them all.
ghost use Rattle.std.specs.Prelude.{◌≡◌, ◌<◌, length, IfOk, IfSome, FitsSigned};
ghost use Rattle.std.specs.Int.{w64};
ghost use Rattle.std.specs.List.{position};
ghost use Rattle.store_ranges.specs.ChunkRanges.{IsSetOf};
ghost use Rattle.store_calls.specs.SeriesCalls.{meets, sources_of, to_read, StartsMeeting};
ghost use Rattle.store_calls.specs.CallStates.{query_of};

use base::NoMemory;
use label_sets::TextList;
use matchers::Selector;
use std::alloc::Global;
use sync_filters::Found;
use ulid_core::{Ulid, UlidList};

/// What a call asks for: the series that the selector matches, with their samples from `low` to `high`, both included.
#[derive(Clone, Copy)]
pub(crate) struct Wanted<'a> {
    pub(crate) selector: &'a Selector,
    pub(crate) replicas: &'a TextList,
    pub(crate) low: i64,
    pub(crate) high: i64,
}

/// The first time that is asked for.
pub(crate) fn low_of(wanted: &Wanted<'_>) -> i64
    ensures value { result ≡ wanted.now.low }
    ensures fits { FitsSigned w64 result }
{
    wanted.low
}

/// The last time that is asked for.
pub(crate) fn high_of(wanted: &Wanted<'_>) -> i64
    ensures value { result ≡ wanted.now.high }
    ensures fits { FitsSigned w64 result }
{
    wanted.high
}

/// The blocks from the first one on that meets the range.
pub(crate) fn from_first_meeting<'a>(blocks: &'a [Found], asked: Wanted<'_>) -> &'a [Found]
    ensures same { to_read (query_of asked.entry) result.now
        ≡ to_read (query_of asked.entry) blocks.now }
    ensures first { StartsMeeting (query_of asked.entry) result.now }
{
    match place_meeting(blocks, asked) {
        Some(place) => &blocks[place..],
        None => &blocks[blocks.len()..],
    }
}

fn place_meeting(blocks: &[Found], asked: Wanted<'_>) -> Option<usize>
    ensures place { result ≡ position (meets (query_of asked.entry)) blocks.now }
    ensures within { IfSome result (λ place. place < length blocks.now) }
{
    blocks.iter().position(|block| meets(block, asked))
}

/// Whether a block may have samples from `low` to `high`.
fn meets(block: &Found, asked: Wanted<'_>) -> bool
    ensures { result ≡ meets (query_of asked.entry) block.now }
{
    block.meta.min_time <= asked.high && asked.low < block.meta.max_time
}

/// The sources of all blocks, ascending, each once.
pub(crate) fn all_sources(alloc: Global, blocks: &[Found]) -> Result<UlidList, NoMemory>
    ensures { IfOk result (IsSetOf (sources_of blocks.now)) }
{
    let mut sources: Vec<Ulid> = Vec::new(alloc);
    for block in blocks {
        sources.extend_from_slice(block.meta.sources.members())?;
    }
    sources.sort()?;
    sources.dedup();
    Ok(UlidList::from_vec(sources))
}

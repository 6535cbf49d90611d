//! What has to be read of a block.
ghost use Rattle.std.specs.Prelude.{◌≡◌, ◌≤◌, map, max, fold, nat_le, IfOk, IfSome};
ghost use Rattle.block_keys.specs.Keys.{segment_limit};
ghost use Rattle.compactor.specs.Named.{segment_number, last_named as last_named_by, named_segments as named_in, if_few};

use base::NoMemory;
use block_content::{CheckRefusal, read_index};
use block_keys::SEGMENT_LIMIT;
use index_parts::ChunkPlace;
use index_v2::LentSeries;
use std::alloc::Global;

/// The greatest number of a segment that an index names, and none where the bytes are no index or that is no number of a segment.
pub(crate) fn named_segments(alloc: Global, bytes: &[u8]) -> Result<Option<u32>, NoMemory>
    ensures named { IfOk result (λ count. count ≡ named_in bytes.now) }
    ensures few { IfOk result (λ count. IfSome count (λ n. n ≤ segment_limit)) }
{
    match read_index(alloc, bytes) {
        Ok(indexed) => Ok(as_segment_number(last_named(indexed.members()))),
        Err(CheckRefusal::NoMemory) => Err(NoMemory),
        Err(_) => Ok(None),
    }
}

/// The number as one of a segment, if it is.
fn as_segment_number(last: u64) -> Option<u32>
    ensures named { result ≡ if_few (nat_le last segment_limit) last }
    ensures few { IfSome result (λ n. n ≤ segment_limit) }
{
    if last <= SEGMENT_LIMIT as u64 {
        Some(last as u32)
    } else {
        None
    }
}

fn number_of(place: &ChunkPlace) -> u64
    ensures { result ≡ segment_number place.now }
{
    u64::from(place.segment) + 1
}

/// The greatest number of a segment that chunks stand in, or the given one.
fn last_of_chunks(before: u64, chunks: &[ChunkPlace]) -> u64
    ensures { result ≡ fold max before (map segment_number chunks.now) }
{
    let mut last = before;
    for place in chunks {
        last = last.max(number_of(place));
    }
    last
}

/// The greatest number of a segment that series name, and 0 where they name none.
fn last_named(indexed: &[LentSeries<'_>]) -> u64
    ensures { result ≡ last_named_by indexed.now }
{
    let mut last = 0;
    for one in indexed {
        last = last_of_chunks(last, one.chunks());
    }
    last
}

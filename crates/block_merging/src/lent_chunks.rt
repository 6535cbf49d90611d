//! The chunks of the series that are merged, lent from their segments.
ghost use Rattle.std.specs.Prelude.{◌≡◌, ◌++◌, map, IfOk};
ghost use Rattle.std.specs.List.{AllByRecursion};
ghost use Rattle.block_writing.specs.Writing.{chunk_in};
ghost use Rattle.block_merging.specs.Placed.{chunk_of};
ghost use Rattle.block_merging.specs.Queues.{IsStanding};

use crate::input_chunk::InputChunk;
use crate::standing_data::chunk_data;
use base::NoMemory;
use index_parts::ChunkPlace;
use wire_bytes::Blob;

fn input_chunk<'a>(segments: &'a [Blob], place: &ChunkPlace) -> InputChunk<'a>
    requires { IsStanding segments.now place.now }
    ensures { chunk_of result ≡ chunk_in segments.now place.now }
{
    let (bytes, sum) = chunk_data(segments, place);
    InputChunk {
        bytes,
        sum,
        min: place.min,
        max: place.max,
    }
}

/// Adds the chunks at places behind others.
pub(crate) fn add_chunks<'a>(
    made: Vec<InputChunk<'a>>,
    segments: &'a [Blob],
    places: &[ChunkPlace],
) -> Result<Vec<InputChunk<'a>>, NoMemory>
    requires { AllByRecursion (IsStanding segments.now) places.now }
    ensures { IfOk result (λ all. map chunk_of all.items ≡ map chunk_of made.entry.items
        ++ map (chunk_in segments.now) places.now) }
{
    let mut all = made;
    for place in places {
        all.push(input_chunk(segments, place))?;
    }
    Ok(all)
}

//! Chunks with their places in the list in which they were given.
ghost use Rattle.std.specs.Prelude.{◌≡◌, IfOk, OnOk};
ghost use Rattle.base.specs.Ordered.{in_order};
ghost use Rattle.block_merging.specs.Placed.{placed_from, begins_before, stands_before};

use crate::input_chunk::InputChunk;
use base::NoMemory;
use std::alloc::Global;

/// A chunk, and its place in the list in which it was given.
#[derive(Clone, Copy)]
pub(crate) struct PlacedChunk<'a> {
    pub(crate) chunk: InputChunk<'a>,
    pub(crate) place: usize,
}

pub(crate) fn placed_chunks<'a>(
    alloc: Global,
    chunks: &[InputChunk<'a>],
) -> Result<Vec<PlacedChunk<'a>>, NoMemory>
    ensures { IfOk result (λ made. made.items ≡ placed_from 0 chunks.now) }
{
    let mut made = Vec::with_capacity(alloc, chunks.len())?;
    for (place, chunk) in chunks.iter().enumerate() {
        made.push(PlacedChunk {
            chunk: *chunk,
            place,
        })?;
    }
    Ok(made)
}

/// Puts chunks in the order of their begins.
pub(crate) fn sort_by_begin(chunks: &mut Vec<PlacedChunk<'_>>) -> Result<(), NoMemory>
    ensures { OnOk result (chunks.new.items ≡ in_order begins_before chunks.old.items) }
{
    chunks.sort_by_key(|one| one.chunk.min)?;
    Ok(())
}

/// Puts chunks in the order in which they were given.
pub(crate) fn sort_by_place(chunks: &mut Vec<PlacedChunk<'_>>) -> Result<(), NoMemory>
    ensures { OnOk result (chunks.new.items ≡ in_order stands_before chunks.old.items) }
{
    chunks.sort_by_key(|one| one.place)?;
    Ok(())
}

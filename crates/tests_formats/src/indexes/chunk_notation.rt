//! The notation of a chunk: `FROM..TO@SEGMENT:OFFSET`, the times of its first and of its last sample, and where it stands.

use crate::says::{cut_at, say};
use index_parts::{ChunkList, ChunkPlace};
use std::alloc::Global;

/// The chunks of a text, with a blank between.
pub(crate) fn chunks_of(alloc: Global, text: &str) -> ChunkList {
    let mut chunks = ChunkList::new(alloc);
    for word in text.split(' ') {
        if !word.is_empty() {
            let _ = chunks.push(chunk_of(word));
        }
    }
    chunks
}

fn chunk_of(word: &str) -> ChunkPlace {
    let (times, place) = cut_at(word, '@');
    let (min, max) = times.split_once("..").unwrap_or((times, ""));
    let (segment, offset) = cut_at(place, ':');
    ChunkPlace {
        min: min.parse().unwrap_or(0),
        max: max.parse().unwrap_or(0),
        segment: segment.parse().unwrap_or(0),
        offset: offset.parse().unwrap_or(0),
    }
}

/// Prints chunks, each behind a blank, up to the line's end.
pub(crate) fn print_chunks(rt: &HostRuntime, chunks: &[ChunkPlace]) {
    for chunk in chunks {
        let _ = print!(rt;
            " {}..{}@{}:{}",
            chunk.min, chunk.max, chunk.segment, chunk.offset
        );
    }
    say(rt, "");
}

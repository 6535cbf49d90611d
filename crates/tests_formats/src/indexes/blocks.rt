//! Blocks that a Prometheus server wrote, each in a folder with its index and its one segment: printed are its series under their
//! final labels, with all their samples, and how many chunks it has, each byte of which is guarded by its sum. What is to be
//! printed comes from Prometheus' own reader.

use crate::indexes::taken::put_final;
use crate::labels::{put_samples, set_of};
use crate::says::{file_of, put, say, show};
use chunk_files::{ChunkRefusal, read_chunk, take_chunk};
use index_parts::ChunkPlace;
use index_v2::IndexSeries;
use std::alloc::Global;
use xor_chunks::decode_stored;

/// The external labels under which the blocks were asked for.
const EXTERNAL: &str = "{cluster=\"c\"}";

/// What a chunk has beside its length and its data: a byte of encoding and four of its sum.
const BESIDE: usize = 5;

/// Prints series with all their samples, out of a segment, and the count of their chunks.
pub(crate) fn print_block(rt: &HostRuntime, list: &[IndexSeries], path: &str) {
    let segment = file_of(rt, path);
    let external = set_of(rt.alloc(), EXTERNAL);
    let mut count = 0usize;
    for series in list {
        put(rt, "series ");
        put_final(rt, &series.labels, &external);
        for place in series.chunks.members() {
            print_chunk(rt, *place, segment.as_slice());
        }
        say(rt, "");
        count = count.saturating_add(series.chunks.len());
    }
    let _ = println!(rt; "chunks {count}");
}

/// Prints the samples of a chunk, each behind a blank, or what is wrong with it.
fn print_chunk(rt: &HostRuntime, place: ChunkPlace, segment: &[u8]) {
    match read_chunk(segment, u64::from(place.offset)) {
        Ok(data) if place.segment == 0 => {
            let alloc = rt.alloc();
            let part = segment.get(place.offset as usize..).unwrap_or(&[]);
            if !is_guarded(alloc, part, data.len()) {
                put(rt, " not guarded");
            }
            match decode_stored(alloc, data) {
                Ok(samples) => put_samples(rt, samples.members()),
                Err(refusal) => show(rt, &refusal),
            }
        }
        _ => put(rt, " no chunk"),
    }
}

/// Whether the chunk at the front of a part of a segment, with so many bytes of data, is refused by its sum with any one byte
/// behind its length changed: in its first bit, in its last one or in all of them.
fn is_guarded(alloc: Global, part: &[u8], size: usize) -> bool {
    let Ok(mut changed) = Vec::from_slice(alloc, part) else {
        return false;
    };
    let front = if size < 128 { 1 } else { 2 };
    for place in front..size.saturating_add(front + BESIDE) {
        for bits in [0x80, 0x01, 0xff] {
            if let Some(byte) = changed.get_mut(place) {
                *byte ^= bits;
            }
            let read = take_chunk(changed.as_slice());
            if !matches!(read, Err(ChunkRefusal::BadSum { .. })) {
                return false;
            }
            if let Some(byte) = changed.get_mut(place) {
                *byte ^= bits;
            }
        }
    }
    true
}

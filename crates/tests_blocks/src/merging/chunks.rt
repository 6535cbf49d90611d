//! A block as text: for each series its labels, and for each of its chunks its times, whether it is one of the given blocks' data,
//! whether these have a byte of zeros that our own writer leaves out, and its samples.
use crate::says::say;
use block_content::read_index;
use block_meta::BlockFiles;
use chunk_files::read_chunk;
use index_parts::ChunkPlace;
use index_v2::LentSeries;
use label_sets::Sample;
use std::str;
use wire_bytes::Blob;
use xor_chunks::{decode, decode_stored};

/// How many samples are printed of a chunk.
const SHOWN: usize = 6;

pub(crate) fn print_block(rt: &HostRuntime, given: &[BlockFiles], block: &BlockFiles) {
    match read_index(rt.alloc(), block.index.bytes()) {
        Ok(list) => print_list(rt, given, block.segments.members(), list.members()),
        Err(_) => say(rt, "no index"),
    }
}

fn print_list(rt: &HostRuntime, given: &[BlockFiles], segments: &[Blob], list: &[LentSeries<'_>]) {
    for series in list {
        print_labels(rt, series);
        for place in series.chunks() {
            print_chunk(rt, given, *place, chunk_bytes(segments, *place));
        }
    }
}

fn print_labels(rt: &HostRuntime, series: &LentSeries<'_>) {
    let mut text = Vec::new(rt.alloc());
    if let Ok(copied) = series.to_series(rt.alloc()) {
        let _ = copied.labels.write(&mut text);
    }
    let _ = println!(rt;
        "  {}",
        str::from_utf8(text.as_slice()).unwrap_or("no text")
    );
}

fn print_chunk(rt: &HostRuntime, given: &[BlockFiles], place: ChunkPlace, bytes: &[u8]) {
    let is_ours = decode(rt.alloc(), bytes).is_ok();
    let longer = if is_ours { "" } else { " with a byte of zeros" };
    let word = if is_given(given, bytes) {
        "given"
    } else {
        "new"
    };
    let _ = print!(rt; "    {} {} {word}{longer}", place.min, place.max);
    match decode_stored(rt.alloc(), bytes) {
        Ok(samples) => print_samples(rt, samples.members()),
        Err(_) => say(rt, " no samples"),
    }
}

fn print_samples(rt: &HostRuntime, samples: &[Sample]) {
    let _ = print!(rt; " {}", samples.len());
    for sample in samples.iter().take(SHOWN) {
        let _ = print!(rt; " {}:{}", sample.time, sample.pattern);
    }
    say(rt, "");
}

fn chunk_bytes(segments: &[Blob], place: ChunkPlace) -> &[u8] {
    match segments.get(place.segment as usize) {
        Some(segment) => read_chunk(segment.bytes(), u64::from(place.offset)).unwrap_or(&[]),
        None => &[],
    }
}

/// Whether the data stand in a segment of one of the blocks.
fn is_given(given: &[BlockFiles], bytes: &[u8]) -> bool {
    for block in given {
        for segment in block.segments.members() {
            if contains(segment.bytes(), bytes) {
                return true;
            }
        }
    }
    false
}

fn contains(segment: &[u8], bytes: &[u8]) -> bool {
    if bytes.is_empty() {
        return false;
    }
    for window in segment.windows(bytes.len()) {
        if window == bytes {
            return true;
        }
    }
    false
}

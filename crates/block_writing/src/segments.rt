//! Segments with chunks, of which the last one may still grow.

ghost use Rattle.std.specs.Prelude.{◌≡◌, ◌↔◌, ◌+◌, ◌-◌, ◌<◌, ◌≤◌, [], ◌∷◌, ◌++◌, ℕ, List, map, length, vec_len, IfOk, IfSome, OnOk, OnErr, Err};
ghost use Rattle.block_keys.specs.Keys.{segment_limit};
ghost use Rattle.wire_bytes.specs.Crc.{crc};
ghost use Rattle.chunk_files.specs.Chunk.{header, frame_text};
ghost use Rattle.chunk_files.specs.Layout.{greatest, header_size, xor};
ghost use Rattle.block_writing.specs.declared.segments.SegmentPlace.{SegmentPlace as Place};
ghost use Rattle.block_writing.specs.Segments.{AreRuns, AreSegments, segment_text, places_from};

use base::NoMemory;
use block_keys::SEGMENT_LIMIT;
use chunk_files::{SegmentRefusal, SegmentWriter};

/// Where a chunk stands: the number of its segment, counted from 0, and its first byte in it.
#[derive(Clone, Copy, Debug, PartialEq, Eq)]
pub struct SegmentPlace {
    pub segment: u32,
    pub offset: u32,
}

/// How many segments a block may have. So many hold more than 2^44 bytes, for which there is no memory.
const MOST: usize = SEGMENT_LIMIT as usize;

/// Appends a chunk, whose sum may be known, to a segment.
fn append_one(
    writer: &mut SegmentWriter,
    bytes: &[u8],
    sum: Option<u32>,
) -> Result<u64, SegmentRefusal>
    requires { IfSome sum (λ s. s ≡ crc (xor ∷ bytes.now)) }
    ensures offset { IfOk result (λ offset. offset ≡ length writer.old) }
    ensures ok { OnOk result (writer.new ≡ writer.old ++ frame_text bytes.now) }
    ensures full { (result ≡ Err SegmentRefusal.Full)
        ↔ (greatest < length writer.old + length (frame_text bytes.now)) }
    ensures err { OnErr result (writer.new ≡ writer.old) }
{
    match sum {
        Some(sum) => writer.append_summed(bytes, sum),
        None => writer.append(bytes),
    }
}

/// Appends a chunk to the last segment, and gives where it begins in it.
fn append_to_last(
    segments: &mut Vec<SegmentWriter>,
    bytes: &[u8],
    sum: Option<u32>,
) -> Result<u64, SegmentRefusal>
    requires some { 0 < vec_len segments.old }
    requires sum { IfSome sum (λ s. s ≡ crc (xor ∷ bytes.now)) }
    ensures ok { (front : List (List ℕ)) (last : List ℕ) → segments.old.items ≡ front ++ last ∷ []
        → IfOk result (λ offset. (offset ≡ length last)
        × (segments.new.items ≡ front ++ (last ++ frame_text bytes.now) ∷ [])) }
    ensures full { (front : List (List ℕ)) (last : List ℕ) → segments.old.items ≡ front ++ last ∷ []
        → (result ≡ Err SegmentRefusal.Full)
        ↔ (greatest < length last + length (frame_text bytes.now)) }
    ensures err { OnErr result (segments.new.items ≡ segments.old.items) }
    ensures low { IfOk result (λ offset. offset ≤ greatest) }
    ensures as_many { vec_len segments.new ≡ vec_len segments.old }
{
    match segments.last_mut() {
        Some(last) => append_one(last, bytes, sum),
        None => Err(SegmentRefusal::Full),
    }
}

/// Begins a segment with a chunk. The first one begins with room for so many bytes.
fn begin_segment(
    segments: &mut Vec<SegmentWriter>,
    room: usize,
    bytes: &[u8],
    sum: Option<u32>,
) -> Result<SegmentPlace, NoMemory>
    requires few { vec_len segments.old ≤ segment_limit }
    requires sum { IfSome sum (λ s. s ≡ crc (xor ∷ bytes.now)) }
    requires fits { header_size + length (frame_text bytes.now) ≤ greatest }
    ensures ok { IfOk result (λ place.
        (place ≡ record { segment = length segments.old.items; offset = header_size })
        × (segments.new.items ≡ segments.old.items ++ (header ++ frame_text bytes.now) ∷ [])) }
    ensures err { OnErr result (segments.new.items ≡ segments.old.items) }
    ensures few { vec_len segments.new ≤ segment_limit }
    ensures number { IfOk result (λ place. place.segment < segment_limit) }
{
    let number = segments.len();
    if number == MOST {
        return Err(NoMemory);
    }
    let room = if number == 0 { room } else { 0 };
    let mut writer = SegmentWriter::with_room(*segments.allocator(), room)?;
    let offset = match append_one(&mut writer, bytes, sum) {
        Ok(offset) => offset,
        Err(SegmentRefusal::NoMemory) => return Err(NoMemory),
        Err(SegmentRefusal::Full) => unreachable!(),
    };
    segments.push(writer)?;
    Ok(SegmentPlace {
        segment: number as u32,
        offset: offset as u32,
    })
}

/// Appends a chunk, whose sum may be known: to the last segment, and where that cannot hold it, to the next one. The first
/// segment begins with room for so many bytes.
pub(crate) fn append_chunk(
    segments: &mut Vec<SegmentWriter>,
    room: usize,
    bytes: &[u8],
    sum: Option<u32>,
) -> Result<SegmentPlace, NoMemory>
    requires few { vec_len segments.old ≤ segment_limit }
    requires sum { IfSome sum (λ s. s ≡ crc (xor ∷ bytes.now)) }
    requires fits { header_size + length (frame_text bytes.now) ≤ greatest }
    ensures ok { (contents : List (List ℕ)) (places : List Place)
        → AreSegments contents places segments.old.items
        → IfOk result (λ place. AreSegments (contents ++ bytes.now ∷ []) (places ++ place ∷ [])
        segments.new.items) }
    ensures err { OnErr result (segments.new.items ≡ segments.old.items) }
    ensures few { vec_len segments.new ≤ segment_limit }
    ensures number { IfOk result (λ place. place.segment < segment_limit) }
{
    let count = segments.len();
    if count == 0 {
        return begin_segment(segments, room, bytes, sum);
    }
    match append_to_last(segments, bytes, sum) {
        Ok(offset) => Ok(SegmentPlace {
            segment: (count - 1) as u32,
            offset: offset as u32,
        }),
        Err(SegmentRefusal::NoMemory) => Err(NoMemory),
        Err(SegmentRefusal::Full) => begin_segment(segments, room, bytes, sum),
    }
}

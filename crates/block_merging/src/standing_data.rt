//! The data of chunks that were found in their segments before.
ghost use Rattle.std.specs.Prelude.{◌≡◌, ◌+◌, ◌<◌, ◌∷◌, ◌++◌, ℕ, List, [], length, take, drop, slice_get, unwrap_or};
ghost use Rattle.std.specs.Int.{w32};
ghost use Rattle.wire_bytes.specs.Crc.{crc};
ghost use Rattle.wire_bytes.specs.FieldTexts.{IsFixed};
ghost use Rattle.chunk_files.specs.Chunk.{IsFront, IsPlace};
ghost use Rattle.chunk_files.specs.Layout.{xor};
ghost use Rattle.block_writing.specs.Standing.{content_at};
ghost use Rattle.block_writing.specs.Writing.{part_of};
ghost use Rattle.block_merging.specs.Queues.{IsStanding};

use index_parts::ChunkPlace;
use wire_bytes::{Blob, Cursor};

/// So many bytes behind an encoding, and none where there are fewer.
fn behind_encoding(framed: &[u8], size: u64) -> &[u8]
    ensures { size < length framed.now → result.now ≡ take size (drop 1 framed.now) }
{
    if framed.len() as u64 <= size {
        return &[];
    }
    &framed[1..size as usize + 1]
}

/// The number that stands in four bytes behind an encoding and so many bytes, and 0 where there are fewer.
fn sum_behind(framed: &[u8], size: u64) -> u32
    ensures { (front text after : List ℕ) (sum : ℕ) → length front ≡ size + 1 → IsFixed w32 text sum
        → framed.now ≡ front ++ (text ++ after) → result ≡ sum }
{
    if framed.len() as u64 <= size {
        return 0;
    }
    let mut cursor = Cursor::at(framed, size as usize + 1);
    match cursor.take_u32() {
        Ok(sum) => sum,
        Err(_) => 0,
    }
}

/// The data of the chunk at the front of a part, and its sum. It was found there before, so neither is tested again.
fn front_data(part: &[u8]) -> (&[u8], u32)
    ensures data { (content : List ℕ) → IsFront part.now content → result.0.now ≡ content }
    ensures sum { (content : List ℕ) → IsFront part.now content → result.1 ≡ crc (xor ∷ content) }
{
    let mut cursor = Cursor::new(part);
    match cursor.take_uvarint() {
        Ok(size) => {
            let framed = cursor.rest();
            (behind_encoding(framed, size), sum_behind(framed, size))
        }
        Err(_) => (&[], 0),
    }
}

fn segment_data(segment: &[u8], offset: u32) -> (&[u8], u32)
    ensures data { (content : List ℕ) → IsPlace segment.now offset content
        → result.0.now ≡ content }
    ensures sum { (content : List ℕ) → IsPlace segment.now offset content
        → result.1 ≡ crc (xor ∷ content) }
{
    let begin = offset as usize;
    if begin > segment.len() {
        return (&[], 0);
    }
    front_data(&segment[begin..])
}

/// The bytes of a segment, and none where the block does not have it.
fn segment_of(segments: &[Blob], number: u32) -> &[u8]
    ensures { result.now ≡ unwrap_or (slice_get segments.now number) [] }
{
    match segments.get(number as usize) {
        Some(segment) => segment.bytes(),
        None => &[],
    }
}

/// The data of the chunk that stands at a place of a block's segments, and the sum of its encoding and data.
pub(crate) fn chunk_data<'a>(segments: &'a [Blob], place: &ChunkPlace) -> (&'a [u8], u32)
    requires { IsStanding segments.now place.now }
    ensures data { result.0.now ≡ content_at segments.now (part_of place.now) }
    ensures sum { result.1 ≡ crc (xor ∷ result.0.now) }
{
    segment_data(segment_of(segments, place.segment), place.offset)
}

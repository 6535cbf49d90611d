//! A segment file that grows chunk by chunk, up to the longest file that a shelf gives. A chunk that a compaction
//! carries over unchanged brings its sum along, which was tested when the chunk was read.

ghost use Rattle.std.specs.Prelude.{◌≡◌, ◌↔◌, ◌+◌, ◌<◌, ◌∷◌, ◌++◌, ℕ, List, length, take, IsTrue, IfOk, IfSome, OnOk, OnErr, Err, ◌≤◌, ◌^◌};
ghost use Rattle.wire_bytes.specs.FieldTexts.{IsUvarint};
ghost use Rattle.wire_bytes.specs.Written.{uvarint_text};
ghost use Rattle.wire_bytes.specs.Crc.{crc};
ghost use Rattle.chunk_files.specs.Chunk.{IsChunk, IsPlace, header, frame_text};
ghost use Rattle.chunk_files.specs.Layout.{greatest, xor};

use crate::SegmentRefusal;
use crate::layout::{FRAME_SIZE, GREATEST, MAGIC, VERSION, XOR};
use base::{NoMemory, cut_on_err};
use std::alloc::Global;
use std::marker::Model;
use wire_bytes::{Blob, crc_of, put_bytes, put_u8, put_u32, put_uvarint};

/// Writes chunks one after another behind a header.
#[derive(Drop)]
pub struct SegmentWriter {
    bytes: Vec<u8>,
}

impl Model for SegmentWriter {
    ghost use Rattle.std.specs.Prelude.{List, ℕ};
    ghost use Rattle.chunk_files.specs.Chunk.{IsFilled};

    ghost Value = { List ℕ };

    ghost view = { λ w. w.bytes.items };

    ghost invariant = { λ w. IsFilled w.bytes.items };
}

/// How many bytes a length is written in.
#[tactic(auto, using(crate::proofs::SegmentLaws::sizes))]
fn size_of_length(count: usize) -> usize
    requires { count < 2 ^ 28 }
    ensures exact { result ≡ length (uvarint_text count) }
    ensures few { result ≤ 4 }
{
    if count < 0x80 {
        1
    } else if count < 0x4000 {
        2
    } else if count < 0x20_0000 {
        3
    } else {
        4
    }
}

/// Whether a chunk of this data fits behind `filled` bytes.
fn fits(filled: usize, content: &[u8]) -> bool
    requires { filled ≤ greatest }
    ensures { IsTrue result ↔ (filled + length (frame_text content.now) ≤ greatest) }
{
    let size = content.len();
    size <= GREATEST && size_of_length(size) + size + FRAME_SIZE <= GREATEST - filled
}

/// Puts a chunk's length, encoding and data behind others, and gives where its encoding stands. Where memory is wanting, a part
/// of them may be put.
fn put_data(out: &mut Vec<u8>, content: &[u8]) -> Result<usize, NoMemory>
    ensures text { OnOk result (out.new.items ≡ out.old.items
        ++ (uvarint_text (length content.now) ++ xor ∷ content.now)) }
    ensures place { IfOk result (λ place. place
        ≡ length (out.old.items ++ uvarint_text (length content.now))) }
    ensures size { OnOk result
        (IsUvarint (uvarint_text (length content.now)) (length content.now)) }
    ensures front { take (length out.old.items) out.new.items ≡ out.old.items }
{
    put_uvarint(out, content.len() as u64)?;
    let place = out.len();
    put_u8(out, XOR)?;
    put_bytes(out, content)?;
    Ok(place)
}

/// The sum of bytes, which may be known.
fn sum_of(known: Option<u32>, bytes: &[u8]) -> u32
    requires { IfSome known (λ sum. sum ≡ crc bytes.now) }
    ensures { result ≡ crc bytes.now }
{
    match known {
        Some(sum) => sum,
        None => crc_of(bytes),
    }
}

/// Puts a chunk, whose sum may be known, behind others. Where memory is wanting, a part of it may be put.
fn put_parts(out: &mut Vec<u8>, content: &[u8], sum: Option<u32>) -> Result<(), NoMemory>
    requires { IfSome sum (λ sum. sum ≡ crc (xor ∷ content.now)) }
    ensures text { OnOk result (out.new.items ≡ out.old.items ++ frame_text content.now) }
    ensures chunk { OnOk result (IsChunk (frame_text content.now) content.now) }
    ensures front { take (length out.old.items) out.new.items ≡ out.old.items }
{
    let place = put_data(out, content)?;
    let sum = sum_of(sum, &out.as_slice()[place..]);
    put_u32(out, sum)
}

/// Puts a chunk, whose sum may be known, behind others, or nothing.
fn put_chunk(out: &mut Vec<u8>, content: &[u8], sum: Option<u32>) -> Result<(), NoMemory>
    requires { IfSome sum (λ sum. sum ≡ crc (xor ∷ content.now)) }
    ensures text { OnOk result (out.new.items ≡ out.old.items ++ frame_text content.now) }
    ensures chunk { OnOk result (IsChunk (frame_text content.now) content.now) }
    ensures err { OnErr result (out.new.items ≡ out.old.items) }
{
    let filled = out.len();
    let put = put_parts(out, content, sum);
    cut_on_err(out, filled, put)
}

impl SegmentWriter {
    /// A segment without chunks.
    pub fn new(alloc: Global) -> Result<SegmentWriter, NoMemory>
        ensures { IfOk result (λ writer. writer ≡ header) }
    {
        SegmentWriter::with_room(alloc, 0)
    }

    /// A segment without chunks, with room for so many bytes, as far as a segment may have them.
    pub fn with_room(alloc: Global, room: usize) -> Result<SegmentWriter, NoMemory>
        ensures { IfOk result (λ writer. writer ≡ header) }
    {
        let mut bytes = Vec::with_capacity(alloc, room.min(GREATEST))?;
        put_u32(&mut bytes, MAGIC)?;
        put_bytes(&mut bytes, &[VERSION, 0, 0, 0])?;
        Ok(SegmentWriter { bytes })
    }

    /// Appends a chunk of XOR data, and gives the place at which it begins.
    pub fn append(&mut self, bytes: &[u8]) -> Result<u64, SegmentRefusal>
        ensures offset { IfOk result (λ offset. offset ≡ length self.old) }
        ensures ok { OnOk result (self.new ≡ self.old ++ frame_text bytes.now) }
        ensures placed { IfOk result (λ offset. IsPlace self.new offset bytes.now) }
        // chunks that were appended before still stand
        ensures kept { OnOk result ((place : ℕ) (content : List ℕ)
            → IsPlace self.old place content → IsPlace self.new place content) }
        ensures full { (result ≡ Err SegmentRefusal.Full)
            ↔ (greatest < length self.old + length (frame_text bytes.now)) }
        ensures err { OnErr result (self.new ≡ self.old) }
    {
        let filled = self.bytes.len();
        if !fits(filled, bytes) {
            return Err(SegmentRefusal::Full);
        }
        put_chunk(&mut self.bytes, bytes, None)?;
        Ok(filled as u64)
    }

    /// Appends a chunk of XOR data whose sum is known, as `read_summed` gives both, and gives the place at which it begins.
    pub fn append_summed(&mut self, bytes: &[u8], sum: u32) -> Result<u64, SegmentRefusal>
        requires { sum ≡ crc (xor ∷ bytes.now) }
        ensures offset { IfOk result (λ offset. offset ≡ length self.old) }
        ensures ok { OnOk result (self.new ≡ self.old ++ frame_text bytes.now) }
        ensures placed { IfOk result (λ offset. IsPlace self.new offset bytes.now) }
        // chunks that were appended before still stand
        ensures kept { OnOk result ((place : ℕ) (content : List ℕ)
            → IsPlace self.old place content → IsPlace self.new place content) }
        ensures full { (result ≡ Err SegmentRefusal.Full)
            ↔ (greatest < length self.old + length (frame_text bytes.now)) }
        ensures err { OnErr result (self.new ≡ self.old) }
    {
        let filled = self.bytes.len();
        if !fits(filled, bytes) {
            return Err(SegmentRefusal::Full);
        }
        put_chunk(&mut self.bytes, bytes, Some(sum))?;
        Ok(filled as u64)
    }

    /// The segment's bytes.
    pub fn finish(self) -> Blob
        ensures { result ≡ self }
    {
        Blob::from_vec(self.bytes)
    }
}

//! Chunks out of a segment file: each is lent where it lies, once its sum is found right. Histograms have a refusal of
//! their own, since they are no damage, but samples of a kind that nothing here reads.

ghost use Rattle.std.specs.Prelude.{◌≡◌, ◌+◌, ◌<◌, ◌≤◌, ◌∷◌, IfOk, ℕ, List, slice_index, drop, length};
ghost use Rattle.std.specs.Result.{IsOkAnd};
ghost use Rattle.base.specs.Grammar.{IsBytes};
ghost use Rattle.base.specs.Reading.{Answers, Steps, refused_as};
ghost use Rattle.wire_bytes.specs.Crc.{crc};
ghost use Rattle.wire_bytes.specs.Fields.{bytes_at};
ghost use Rattle.chunk_files.specs.Chunk.{IsFront, IsPlace};
ghost use Rattle.chunk_files.specs.ChunkReading.{as_short, header_at, by_encoding, chunk_at, segment_at};
ghost use Rattle.chunk_files.specs.Layout.{xor};

use crate::ChunkRefusal;
use crate::layout::{FLOAT_HISTOGRAM, HEADER_SIZE, HISTOGRAM, MAGIC, VERSION, XOR};
use wire_bytes::{Cursor, crc_of};

/// The encoding and as many bytes of data.
#[tactic(auto, unfolding(wire_bytes::specs::Fields::bytes_at))]
fn take_framed<'a>(cursor: &mut Cursor<'a>, size: u64) -> Result<&'a [u8], ChunkRefusal>
    ensures exact { Steps (λ bytes. bytes.now) cursor.old cursor.new result
        (refused_as as_short (bytes_at (size + 1) cursor.old)) }
    ensures some { IfOk result (λ bytes. 0 < length bytes.now) }
{
    let left = cursor.rest();
    if left.len() as u64 <= size {
        return Err(ChunkRefusal::Short);
    }
    Ok(cursor.take_bytes(size as usize + 1)?)
}

/// The data behind an encoding that is XOR's.
#[tactic(auto, using(crate::proofs::ChunkLaws::one_in_front))]
fn data_of<'a>(framed: &'a [u8]) -> Result<&'a [u8], ChunkRefusal>
    requires { 0 < length framed.now }
    ensures exact { Answers (λ content. content.now) result
        (by_encoding (slice_index framed.now 0) (drop 1 framed.now)) }
    ensures whole { IfOk result (λ content. framed.now ≡ xor ∷ content.now) }
{
    match framed[0] {
        XOR => Ok(&framed[1..]),
        HISTOGRAM | FLOAT_HISTOGRAM => Err(ChunkRefusal::Histogram(framed[0])),
        encoding => Err(ChunkRefusal::UnknownEncoding(encoding)),
    }
}

/// The data of the chunk at the front, and the sum of its encoding and data.
#[tactic(auto, unfolding(crate::specs::ChunkReading::chunk_at))]
fn summed_of<'a>(part: &'a [u8]) -> Result<(&'a [u8], u32), ChunkRefusal>
    ensures exact { Answers (λ read. read.0.now) result (chunk_at part.now) }
    ensures sum { IfOk result (λ read. read.1 ≡ crc (xor ∷ read.0.now)) }
    ensures bytes { IsBytes part.now }
{
    let mut cursor = Cursor::new(part);
    let size = cursor.take_uvarint()?;
    let framed = take_framed(&mut cursor, size)?;
    let kept = cursor.take_u32()?;
    let computed = crc_of(framed);
    if kept != computed {
        return Err(ChunkRefusal::BadSum { kept, computed });
    }
    let content = data_of(framed)?;
    Ok((content, computed))
}

fn chunk_of<'a>(part: &'a [u8]) -> Result<&'a [u8], ChunkRefusal>
    ensures exact { Answers (λ content. content.now) result (chunk_at part.now) }
    ensures bytes { IsBytes part.now }
{
    let (content, _) = summed_of(part)?;
    Ok(content)
}

/// Tests how a segment begins.
#[tactic(auto, unfolding(crate::specs::ChunkReading::header_at))]
fn test_header(segment: &[u8]) -> Result<(), ChunkRefusal>
    ensures { Answers (λ x. x) result (header_at segment.now) }
{
    let mut cursor = Cursor::new(segment);
    match cursor.take_u32() {
        Ok(MAGIC) => {}
        _ => return Err(ChunkRefusal::BadMagic),
    }
    match cursor.take_u8() {
        Ok(VERSION) => Ok(()),
        _ => Err(ChunkRefusal::BadVersion),
    }
}

/// Lends the XOR data of the chunk at the front of a part of a segment.
pub fn take_chunk<'a>(part: &'a [u8]) -> Result<&'a [u8], ChunkRefusal>
    // What is lent is what stands there, and data that stands there is lent.
    ensures found { IfOk result (λ content. IsFront part.now content.now) }
    ensures only { (content : List ℕ) → IsFront part.now content
        → IsOkAnd result (λ lent. lent.now ≡ content) }

    // The first refusal in the order of its cases.
    ensures exact { Answers (λ content. content.now) result (chunk_at part.now) }
    ensures few { IfOk result (λ content. length content.now ≤ length part.now) }
{
    chunk_of(part)
}

/// Lends the XOR data of the chunk at a place of a segment.
pub fn read_chunk<'a>(segment: &'a [u8], offset: u64) -> Result<&'a [u8], ChunkRefusal>
    // What is lent is what stands there, and data that stands there is lent.
    ensures found { IfOk result (λ content. IsPlace segment.now offset content.now) }
    ensures only { (content : List ℕ) → IsPlace segment.now offset content
        → IsOkAnd result (λ lent. lent.now ≡ content) }

    // The first refusal in the order of its cases.
    ensures exact { Answers (λ content. content.now) result (segment_at segment.now offset) }
    ensures few { IfOk result (λ content. length content.now ≤ length segment.now) }
{
    segment_chunk(segment, offset)
}

/// Lends the XOR data of the chunk at a place of a segment, as `read_chunk` does, with the sum of its encoding and data, which
/// was tested.
pub fn read_summed<'a>(segment: &'a [u8], offset: u64) -> Result<(&'a [u8], u32), ChunkRefusal>
    // What is lent is what stands there, and data that stands there is lent.
    ensures found { IfOk result (λ read. IsPlace segment.now offset read.0.now) }
    ensures only { (content : List ℕ) → IsPlace segment.now offset content
        → IsOkAnd result (λ read. read.0.now ≡ content) }
    ensures sum { IfOk result (λ read. read.1 ≡ crc (xor ∷ read.0.now)) }

    // The first refusal in the order of its cases.
    ensures exact { Answers (λ read. read.0.now) result (segment_at segment.now offset) }
    ensures few { IfOk result (λ read. length read.0.now ≤ length segment.now) }
{
    segment_summed(segment, offset)
}

fn segment_chunk<'a>(segment: &'a [u8], offset: u64) -> Result<&'a [u8], ChunkRefusal>
    ensures exact { Answers (λ content. content.now) result (segment_at segment.now offset) }
    ensures bytes { IsBytes segment.now }
{
    let (content, _) = segment_summed(segment, offset)?;
    Ok(content)
}

#[tactic(auto, using(crate::proofs::ChunkLaws::too_far), unfolding(crate::specs::ChunkReading::segment_at))]
fn segment_summed<'a>(segment: &'a [u8], offset: u64) -> Result<(&'a [u8], u32), ChunkRefusal>
    ensures exact { Answers (λ read. read.0.now) result (segment_at segment.now offset) }
    ensures sum { IfOk result (λ read. read.1 ≡ crc (xor ∷ read.0.now)) }
    ensures bytes { IsBytes segment.now }
{
    test_header(segment)?;
    if offset < HEADER_SIZE {
        return Err(ChunkRefusal::Short);
    }
    if offset > segment.len() as u64 {
        return Err(ChunkRefusal::Short);
    }
    summed_of(&segment[offset as usize..])
}

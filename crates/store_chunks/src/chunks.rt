//! One chunk of a segment, by the bytes that were read of it.
ghost use Rattle.std.specs.Prelude.{◌≡◌, ◌↔◌, ◌+◌, ◌≤◌, ◌<◌, ◌-◌, length, IsTrue, IfOk, IfSome, Ok, Err};
ghost use Rattle.std.specs.List.{list_all};
ghost use Rattle.std.specs.Result.{result_ok};
ghost use Rattle.base.specs.Grammar.{IsBytes};
ghost use Rattle.chunk_files.specs.Layout.{greatest, frame_size};
ghost use Rattle.store_ranges.specs.Asking.{block_asked};
ghost use Rattle.store_chunks.specs.ChunkReads.{chunk_len_at, is_chunk_of, stored_at, tested_at};
ghost use Rattle.store_ranges.specs.Findings.{ReadsBehind};

use base::{NoMemory, members_behind};
use block_content::have_times_of;
use chunk_files::{FRAME_SIZE, GREATEST, HEADER_SIZE, take_chunk};
use index_parts::ChunkPlace;
use label_sets::Sample;
use store_ranges::Asked;
use wire_bytes::Cursor;
use xor_chunks::{XorRefusal, append_stored};

/// How many bytes a chunk's data has at most.
const MOST: u64 = GREATEST as u64;

/// How many bytes a chunk has beside its length and its data.
const FRAME: u64 = FRAME_SIZE as u64;

/// How many bytes the header of a segment takes.
const HEADER: u32 = HEADER_SIZE as u32;

/// How many bytes the chunk at a place takes: its length, its encoding, its data and their sum.
/// None where its length cannot be read, or is more than a segment can have.
#[tactic(auto, unfolding(crate::specs::ChunkReads::chunk_len_at))]
pub fn chunk_len(bytes: &[u8], at: u64) -> Option<u64>
    ensures value { result ≡ result_ok (chunk_len_at bytes.now at) }
    ensures within { IfSome result
        (λ len. (at ≤ length bytes.now) × (at + len ≤ length bytes.now + greatest + frame_size)) }
{
    if at > bytes.len() as u64 {
        return None;
    }
    let whole = bytes.len();
    prove!(whole <= 0x7fff_ffff_ffff_ffff);
    let mut cursor = Cursor::at(bytes, at as usize);
    match cursor.take_uvarint() {
        Ok(size) if size <= MOST => Some(
            cursor.place().saturating_sub(at as usize) as u64 + size + FRAME,
        ),
        _ => None,
    }
}

/// Whether samples are those of a chunk at a place.
fn is_chunk_of(asked: &Asked<'_>, samples: &[Sample], place: &ChunkPlace) -> bool
    ensures { result ≡ is_chunk_of (block_asked asked.now) samples.now place.now }
{
    !samples.is_empty()
        & have_times_of(place, samples)
        & (asked.meta.min_time <= place.min)
        & (place.max < asked.meta.max_time)
        & (HEADER <= place.offset)
}

/// Whether samples are those of a chunk at each of these places.
fn are_chunks_of(asked: &Asked<'_>, samples: &[Sample], places: &[ChunkPlace]) -> bool
    ensures { result ≡ list_all (is_chunk_of (block_asked asked.now) samples.now) places.now }
{
    for place in places {
        if !is_chunk_of(asked, samples, place) {
            return false;
        }
    }
    true
}

/// Whether memory ran out.
fn wants_memory(refusal: XorRefusal) -> bool
    ensures { IsTrue result ↔ (refusal ≡ XorRefusal.NoMemory) }
{
    match refusal {
        XorRefusal::NoMemory => true,
        XorRefusal::Short => false,
        XorRefusal::Falling => false,
        XorRefusal::OutOfRange => false,
        XorRefusal::Trailing => false,
    }
}

/// Reads the samples that the data of the chunk at the front of these bytes stands for, behind
/// others.
fn append_data(samples: Vec<Sample>, bytes: &[u8]) -> Result<Option<Vec<Sample>>, NoMemory>
    ensures { IfOk result (ReadsBehind (λ all. all.items) samples.items (stored_at bytes.now)) }
{
    let content = match take_chunk(bytes) {
        Ok(content) => content,
        Err(_) => return Ok(None),
    };
    match append_stored(samples, content) {
        Ok(all) => Ok(Some(all)),
        Err(refusal) => if wants_memory(refusal) {
            Err(NoMemory)
        } else {
            Ok(None)
        },
    }
}

/// Reads the samples of the chunk at the front of these bytes, behind others. None where it is not
/// a chunk of each of these places.
pub(crate) fn append_tested(
    asked: &Asked<'_>,
    places: &[ChunkPlace],
    samples: Vec<Sample>,
    bytes: &[u8],
) -> Result<Option<Vec<Sample>>, NoMemory>
    ensures read { IfOk result
        (ReadsBehind (λ all. all.items) samples.items
        (tested_at (block_asked asked.now) places.now bytes.now)) }
    ensures bytes { IsBytes bytes.now }
{
    let before = samples.len();
    let all = match append_data(samples, bytes)? {
        Some(all) => all,
        None => return Ok(None),
    };
    if !are_chunks_of(asked, members_behind(all.as_slice(), before), places) {
        return Ok(None);
    }
    Ok(Some(all))
}

//! How many bytes of chunks a check reads, by their lengths alone: it is told before any chunk is tested, as chunks may lie within
//! one another, and then reading each of them would take far longer than reading the segments.
ghost use Rattle.std.specs.Prelude.{◌≡◌, ◌*◌, ◌^◌, ◌<◌, ℕ, List, map, nat_le, drop, sum_by, length, IfOk, OnOk};
ghost use Rattle.std.specs.List.{AllByRecursion};
ghost use Rattle.block_content.specs.Named.{counted, chunk_share};
ghost use Rattle.block_content.specs.StoredPlaces.{place_number, places_of};
ghost use Rattle.block_content.specs.ReadBytes.{if_left, told_behind, told_there, read_bytes};

use crate::naming::CHUNK_SHARE;
use crate::places::place_number;
use base::NoMemory;
use index_v2::LentSeries;
use std::alloc::Global;
use wire_bytes::{Blob, Cursor};

/// A length, where so many bytes are left.
fn if_left(size: u64, left: usize) -> u64
    ensures { result ≡ if_left size left }
{
    if size <= left as u64 { size } else { 0 }
}

/// How many bytes of data the length at the front of bytes tells, where so many are there.
fn told_behind(bytes: &[u8]) -> u64
    ensures { result ≡ told_behind bytes.now }
{
    let mut cursor = Cursor::new(bytes);
    if_left(cursor.take_uvarint().unwrap_or(0), bytes.len())
}

/// The same at a place of a segment.
fn told_at(segment: &[u8], offset: u64) -> u64
    ensures { result ≡ told_behind (drop offset segment.now) }
{
    if offset > segment.len() as u64 {
        return 0;
    }
    told_behind(&segment[offset as usize..])
}

/// The same at the place of a number.
fn told_there(segments: &[Blob], number: u64) -> u64
    ensures { result ≡ told_there segments.now number }
{
    match segments.get((number / 0x1_0000_0000) as usize) {
        Some(segment) => told_at(segment.bytes(), number % 0x1_0000_0000),
        None => 0,
    }
}

/// How many bytes of data the lengths at places tell.
fn told_bytes(segments: &[Blob], numbers: &[u64]) -> u64
    ensures { result ≡ counted (sum_by (told_there segments.now) numbers.now) }
{
    let mut bytes = 0u64;
    for number in numbers {
        bytes = bytes.saturating_add(told_there(segments, *number));
    }
    bytes
}

/// The numbers of the places of all chunks.
fn all_numbers(alloc: Global, indexed: &[LentSeries<'_>]) -> Result<Vec<u64>, NoMemory>
    ensures numbers { IfOk result (λ numbers. numbers.items
        ≡ map place_number (places_of indexed.now)) }
    ensures fits { OnOk result
        (AllByRecursion (λ place. place.offset < 2 ^ 32) (places_of indexed.now)) }
{
    let mut numbers: Vec<u64> = Vec::new(alloc);
    for one in indexed {
        for place in one.chunks() {
            numbers.push(place_number(*place))?;
        }
    }
    Ok(numbers)
}

/// The same, each once, though many chunks stand at one place.
fn numbers_once(alloc: Global, indexed: &[LentSeries<'_>]) -> Result<Vec<u64>, NoMemory>
    ensures { IfOk result (λ numbers. (segments : List (List ℕ))
        → sum_by (told_there segments) numbers.items ≡ read_bytes segments (places_of indexed.now)) }
{
    let mut numbers = all_numbers(alloc, indexed)?;
    numbers.sort_unstable();
    numbers.dedup();
    Ok(numbers)
}

/// Whether few bytes are read of chunks, for so many of segments.
pub(crate) fn reads_few(
    alloc: Global,
    segments: &[Blob],
    segment_bytes: u64,
    indexed: &[LentSeries<'_>],
) -> Result<bool, NoMemory>
    ensures { IfOk result (λ few. few
        ≡ nat_le (counted (read_bytes segments.now (places_of indexed.now)))
        (counted (chunk_share * segment_bytes))) }
{
    let numbers = numbers_once(alloc, indexed)?;
    Ok(told_bytes(segments, &numbers) <= segment_bytes.saturating_mul(CHUNK_SHARE))
}

//! CRC-32C, which guards each section of an index and each chunk of a segment. Sixteen bytes a turn go through tables,
//! and of a turn's steps only the last one waits for the turn before.

ghost use Rattle.std.specs.Prelude.{◌≡◌, ◌+◌, ◌*◌, ◌/◌, ◌%◌, ◌^◌, ◌<◌, ◌≤◌, length, bit_xor};
ghost use Rattle.std.specs.Int.{w32, from_le_bytes};
ghost use Rattle.wire_bytes.specs.Crc.{times_x_to, remainder, crc};

use crate::crc_tables::TABLES;

/// The CRC-32C of bytes (Castagnoli, as in RFC 3720).
pub fn crc_of(bytes: &[u8]) -> u32
    ensures { result ≡ crc bytes.now }
{
    let mut sum = u32::MAX;
    let mut rest = bytes;
    while rest.len() >= 16 {
        let (front, after) = rest.split_at(16);
        sum = with_sixteen(sum, front);
        rest = after;
    }
    with_few(sum, rest) ^ u32::MAX
}

/// The bytes behind the last sixteen.
#[inline(always)]
fn with_few(before: u32, bytes: &[u8]) -> u32
    ensures { result ≡ remainder before bytes.now }
{
    let mut sum = before;
    let mut rest = bytes;
    while rest.len() >= 4 {
        let (front, after) = rest.split_at(4);
        sum = with_half(sum, half_of(front));
        rest = after;
    }
    for byte in rest {
        sum = with_byte(sum, *byte);
    }
    sum
}

/// Sixteen bytes more. Only the last step waits for the sum of those before.
#[inline(always)]
fn with_sixteen(sum: u32, bytes: &[u8]) -> u32
    requires { length bytes.now ≡ 16 }
    ensures { result ≡ remainder sum bytes.now }
{
    let (first, others) = bytes.split_at(4);
    let (second, after) = others.split_at(4);
    let (third, last) = after.split_at(4);
    let middle = times_half(half_of(second), 8) ^ times_half(half_of(third), 4);
    let behind = middle ^ times_half(half_of(last), 0);
    behind ^ times_half(sum ^ half_of(first), 12)
}

/// Four bytes more, the first of them the lowest.
#[inline(always)]
fn with_half(sum: u32, half: u32) -> u32
    ensures { result ≡ times_x_to 32 (bit_xor sum half) }
{
    times_half(sum ^ half, 0)
}

/// A byte more.
#[inline(always)]
fn with_byte(sum: u32, byte: u8) -> u32
    ensures { result ≡ times_x_to 8 (bit_xor sum byte) }
{
    let mixed = sum ^ u32::from(byte);
    (mixed / 256) ^ entry(0, (mixed % 256) as usize)
}

/// Four bytes, the first the lowest. They are read at once, since they are one array before their number is taken.
#[inline(always)]
fn half_of(front: &[u8]) -> u32
    requires { length front.now ≡ 4 }
    ensures { result ≡ from_le_bytes w32 front.now }
{
    u32::from_le_bytes(*front.as_array::<4>().unwrap())
}

/// Four bytes with so many behind them.
#[inline(always)]
fn times_half(half: u32, behind: usize) -> u32
    requires { behind ≤ 12 }
    ensures { result ≡ times_x_to (8 * (behind + 4)) half }
{
    let high = entry(behind, byte_of(half, 3)) ^ entry(behind + 1, byte_of(half, 2));
    let low = entry(behind + 2, byte_of(half, 1)) ^ entry(behind + 3, byte_of(half, 0));
    high ^ low
}

#[inline(always)]
fn byte_of(half: u32, place: u32) -> usize
    requires { place < 4 }
    ensures { result ≡ half / 2 ^ (8 * place) % 256 }
{
    ((half >> (8 * place)) % 256) as usize
}

/// A byte times the power `8 * (slice + 1)` of x.
#[inline(always)]
fn entry(slice: usize, byte: usize) -> u32
    requires slice { slice < 16 }
    requires byte { byte < 256 }
    ensures { result ≡ times_x_to (8 * (slice + 1)) byte }
{
    TABLES[256 * slice + byte]
}

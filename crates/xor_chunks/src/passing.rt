//! Passing over samples of which only the last time is wanted. Well before the end of the bytes each is passed from the place at
//! which it begins, so that none waits for the bits of the one before it, and no pattern is put together.
ghost use Rattle.std.specs.Prelude.{◌≡◌, ◌+◌, ◌-◌, ◌*◌, ◌/◌, ◌^◌, ◌<◌, ◌≤◌, ◌<ℤ◌, pos, ℕ, Bool, List, Ok, IfSome, IsTrue, length, take, drop};
ghost use Rattle.wire_bytes.specs.Bits.{bits_of, bits_in, EndWith};
ghost use Rattle.wire_bytes.specs.Buffer.{Shows};
ghost use Rattle.xor_chunks.specs.State.{State, with_pattern};
ghost use Rattle.xor_chunks.specs.Window.{Window as WindowParts, IsInside};
ghost use Rattle.xor_chunks.specs.Widths.{change_limit, head_limit, peeked, sample_limit, sample_room, soon_limit};
ghost use Rattle.xor_chunks.specs.Known.{state_of};
ghost use Rattle.xor_chunks.specs.Steps.{behind, change_at, value_at, next_at};
ghost use Rattle.xor_chunks.specs.Spans.{end_at};

use crate::last::Last;
use crate::step::{near_time, short_change};
use crate::widths::HEAD_LIMIT;
use crate::window::Window;
use wire_bytes::BitReader;

/// A sample is passed from its place where so many bytes stand from the one on in which it begins. It takes 101 bits at most,
/// or its step's change takes 64.
const ROOM: usize = 16;

/// In so many bytes every place has a number.
const MOST: usize = 0xffff_ffff;

/// Before this time a step of fewer than 63 bits has its end in 64 bits.
const SOON: i64 = 0x4000_0000_0000_0000;

/// The first eight bytes as a number.
#[inline(always)]
fn first_word(bytes: &[u8]) -> u64
    requires { 8 ≤ length bytes.now }
    ensures { bits_of 64 result ≡ bits_in (take 8 bytes.now) }
{
    u64::from_be_bytes([
        bytes[0], bytes[1], bytes[2], bytes[3], bytes[4], bytes[5], bytes[6], bytes[7],
    ])
}

/// A word at whose top stand the bits from a place on.
#[inline(always)]
fn word_at(bytes: &[u8], place: usize) -> u64
    requires { place / 8 + 8 ≤ length bytes.now }
    ensures { Shows result 57 (drop place (bits_in bytes.now)) }
{
    first_word(&bytes[place / 8..]) << ((place % 8) as u32)
}

/// By how much a step has changed, and how many bits tell it, where fewer than 64 bits do.
#[inline(always)]
fn change_in(word: u64) -> Option<(i64, u32)>
    ensures told { IfSome result (λ x. (bits : List Bool) → Shows word change_limit bits
        → change_at bits ≡ behind x.1 (λ after. Ok (x.0, after)) bits) }
    ensures few { IfSome result (λ x. x.1 ≤ change_limit) }
{
    if word >> 63 == 0 {
        return Some((0, 1));
    }
    short_change(word)
}

/// The window of the next value, whose bits begin behind `known` others in a word, and how many bits there are with it.
#[inline(always)]
fn pass_value(word: u64, known: u32, window: Window) -> (Window, u32)
    requires { known ≤ change_limit }
    ensures few { result.1 ≤ sample_limit }
    ensures passed { (bits : List Bool) (pattern : ℕ) → Shows word (known + head_limit) bits
        → sample_limit ≤ length bits → (after : ℕ) × (behind known (value_at pattern window) bits
        ≡ Ok ((after, result.0), drop result.1 bits)) }
{
    let head = word << known;
    if head >> 63 == 0 {
        return (window, known + 1);
    }
    if head >> 62 == 0b10 {
        return (window, known + 2 + window.width());
    }
    let told = Window::told_by(word >> (64 - (known + HEAD_LIMIT)));
    (told, known + HEAD_LIMIT + told.width())
}

/// The next sample, but for its pattern, and how many bits it takes. Nothing is told of what is refused, and of what is rare: a
/// change that takes 64 bits, and a time that is far from all others.
#[inline(always)]
fn pass_one(word: u64, last: &Last) -> Option<(Last, u32)>
    ensures few { IfSome result (λ x. x.1 ≤ sample_limit) }
    ensures passed { IfSome result (λ x. (bits : List Bool) → Shows word peeked bits
        → sample_limit ≤ length bits → (pattern : ℕ) × (next_at (state_of last.now) bits
        ≡ Ok (with_pattern pattern (state_of x.0), drop x.1 bits))) }
    ensures steps { IfSome result (λ x. (0 < x.0.delta) × (x.0.delta < soon_limit)) }
    ensures inside { IfSome result (λ x. IsInside x.0.window) }
{
    let (change, known) = change_in(word)?;
    let (window, passed) = pass_value(word, known, last.window);
    if !window.is_inside() {
        return None;
    }
    let (time, delta) = near_time(last.time, last.delta, i128::from(change))?;
    Some((
        Last {
            time,
            delta,
            pattern: last.pattern,
            window,
        },
        passed,
    ))
}

/// Whether the bits at a word's top tell that a sample comes by the same step as the one before it, which came at this time, and
/// that its value stands in the same window.
#[inline(always)]
fn is_steady(word: u64, time: i64) -> bool
    ensures told { IsTrue result → word / 2 ^ 61 ≡ 2 }
    ensures soon { IsTrue result → time <ℤ pos soon_limit }
{
    word >> 61 == 0b010 && time < SOON
}

/// How many bits a sample takes with its value, behind `known` others in a word, where that stays or stands in the window that was
/// told last, which is so wide.
#[inline(always)]
fn pass_kept(word: u64, known: u32, width: u32) -> Option<u32>
    requires known { known ≤ change_limit }
    requires width { width ≤ 64 }
    ensures few { IfSome result (λ passed. passed ≤ sample_limit) }
    ensures passed { IfSome result (λ passed. (bits : List Bool) (pattern : ℕ)
        (window : WindowParts) → window.width ≡ width → Shows word (known + head_limit) bits
        → sample_limit ≤ length bits → (after : ℕ) × (behind known (value_at pattern window) bits
        ≡ Ok ((after, window), drop passed bits))) }
{
    let head = word << known;
    if head >> 62 == 0b10 {
        Some(known + 2 + width)
    } else if head >> 63 == 0 {
        Some(known + 1)
    } else {
        None
    }
}

/// The time of the next sample, how long it comes after the one before it, and how many bits it takes, where its value stays or
/// stands in the window that was told last, which is so wide.
#[inline(always)]
fn pass_within(word: u64, time: i64, delta: u64, width: u32) -> Option<(i64, u64, u32)>
    requires { width ≤ 64 }
    ensures few { IfSome result (λ x. x.2 ≤ sample_limit) }
    ensures passed { IfSome result (λ x. (bits : List Bool) (last : State) → last.time ≡ time
        → last.delta ≡ delta → last.window.width ≡ width → IsInside last.window
        → Shows word peeked bits → sample_limit ≤ length bits → (pattern : ℕ) × (next_at last bits
        ≡ Ok (
          record { time = x.0; delta = x.1; pattern = pattern; window = last.window },
          drop x.2 bits,
        ))) }
    ensures steps { IfSome result (λ x. (0 < x.1) × (x.1 < soon_limit)) }
{
    let (change, known) = change_in(word)?;
    let passed = pass_kept(word, known, width)?;
    let (time, delta) = near_time(time, delta, i128::from(change))?;
    Some((time, delta, passed))
}

/// Passes over samples from their places, the first of which is told, as long as each one's value stays or stands in the same
/// window.
#[inline(always)]
fn pass_window(count: u16, second: Last, bytes: &[u8], begin: usize) -> (u16, Last, usize)
    requires room { sample_room ≤ length bytes.now }
    requires few { length bytes.now < 2 ^ 32 }
    requires within { begin ≤ 8 * length bytes.now }
    requires steps { (0 < second.delta) × (second.delta < soon_limit) }
    requires inside { IsInside second.window }
    ensures end { end_at count (state_of second) (drop begin (bits_in bytes.now))
        ≡ end_at result.0 (state_of result.1) (drop result.2 (bits_in bytes.now)) }
    ensures within { result.2 ≤ 8 * length bytes.now }
    ensures fewer { result.0 ≤ count }
{
    let greatest = 8 * (bytes.len() - ROOM);
    let width = second.window.width();
    let mut left = count;
    let mut time = second.time;
    let mut delta = second.delta;
    let mut place = begin;
    while left > 0 && place <= greatest {
        let word = word_at(bytes, place);
        if is_steady(word, time) {
            time += delta as i64;
            place += 3 + width as usize;
        } else {
            let Some((after, step, passed)) = pass_within(word, time, delta, width) else {
                break;
            };
            time = after;
            delta = step;
            place += passed as usize;
        }
        left -= 1;
    }
    (
        left,
        Last {
            time,
            delta,
            pattern: second.pattern,
            window: second.window,
        },
        place,
    )
}

/// Passes over samples from their places, the first of which is told: how many are left, the last one, but for its pattern, and
/// the place behind it. It stands alone, so that its loops have the registers to themselves.
#[inline(never)]
fn pass_near(count: u16, second: Last, bytes: &[u8], begin: usize) -> (u16, Last, usize)
    requires room { sample_room ≤ length bytes.now }
    requires few { length bytes.now < 2 ^ 32 }
    requires within { begin ≤ 8 * length bytes.now }
    ensures end { end_at count (state_of second) (drop begin (bits_in bytes.now))
        ≡ end_at result.0 (state_of result.1) (drop result.2 (bits_in bytes.now)) }
    ensures within { result.2 ≤ 8 * length bytes.now }
{
    let greatest = 8 * (bytes.len() - ROOM);
    let mut left = count;
    let mut last = second;
    let mut place = begin;
    while left > 0 && place <= greatest {
        let Some((after, passed)) = pass_one(word_at(bytes, place), &last) else {
            return (left, last, place);
        };
        let (more, far, behind) = pass_window(left - 1, after, bytes, place + passed as usize);
        left = more;
        last = far;
        place = behind;
    }
    (left, last, place)
}

/// The place at which a reader stands in bytes.
fn place_of(bytes: &[u8], reader: &BitReader<'_>) -> usize
    requires few { length bytes.now < 2 ^ 32 }
    requires end { EndWith (bits_in bytes.now) reader.now }
    ensures place { drop result (bits_in bytes.now) ≡ reader.now }
    ensures within { result ≤ 8 * length bytes.now }
{
    8 * bytes.len() - reader.left() as usize
}

/// A reader of the bits from a place on.
fn reader_at(bytes: &[u8], place: usize) -> BitReader<'_>
    requires { place ≤ 8 * length bytes.now }
    ensures { result ≡ drop place (bits_in bytes.now) }
{
    let mut reader = BitReader::new(&bytes[place / 8..]);
    match reader.take_bits((place % 8) as u32) {
        Ok(_) => reader,
        Err(_) => unreachable!(),
    }
}

/// Passes over samples as long as they stand well before the end of the bytes and have nothing that is rare: how many are left,
/// the last one, but for its pattern, and a reader of the bits behind it.
pub(crate) fn pass_most<'a>(
    count: u16,
    second: Last,
    bytes: &'a [u8],
    reader: BitReader<'a>,
) -> (u16, Last, BitReader<'a>)
    requires { EndWith (bits_in bytes.now) reader }
    ensures { end_at count (state_of second) reader.entry
        ≡ end_at result.0 (state_of result.1) result.2 }
{
    if bytes.len() < ROOM || bytes.len() > MOST {
        return (count, second, reader);
    }
    let (left, last, place) = pass_near(count, second, bytes, place_of(bytes, &reader));
    (left, last, reader_at(bytes, place))
}

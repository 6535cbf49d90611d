//! How a sample is told from the one before it. All reading of chunks comes down to this, so one look at the next bits
//! mostly tells time and value, 64 bits hold the sums, and rare cases go through calls.

ghost use Rattle.std.specs.Prelude.{◌≡◌, pos, negsuc, ◌+ℤ◌, ◌-ℤ◌, ◌≤ℤ◌, ◌<◌, ◌≤◌, ◌+◌, ◌-◌, ◌/◌, ◌%◌, ◌^◌, ℕ, ℤ, Bool, List, Ok, if◌then◌else◌, nat_lt, IsTrue, IfOk, IfSome, IfNone};
ghost use Rattle.base.specs.Reading.{Answers};
ghost use Rattle.wire_bytes.specs.Fields.{field_value};
ghost use Rattle.wire_bytes.specs.Buffer.{front, Shows};
ghost use Rattle.xor_chunks.specs.Widths.{wide_field, change_limit, head_limit, soon_limit};
ghost use Rattle.xor_chunks.specs.Known.{state_of};
ghost use Rattle.xor_chunks.specs.Steps.{Reads, take_at, behind, change_at, value_at, within_at, time_after, follow_at, next_at};

use crate::XorRefusal;
use crate::last::Last;
use crate::widths::{HEAD_LIMIT, MIDDLE_FIELD, NARROW_FIELD, PEEKED, WIDE_FIELD};
use crate::window::Window;
use wire_bytes::{BitReader, field_value};

/// The time after a step, and how long that is: `delta`, as the step before it, and `change` more.
#[inline(always)]
fn time_after(time: i64, delta: u64, change: i128) -> Result<(i64, u64), XorRefusal>
    requires low { negsuc (2 ^ 64) ≤ℤ change }
    requires high { change ≤ℤ pos (2 ^ 64) }
    ensures { Answers (λ x. x) result (time_after time (pos delta +ℤ change)) }
{
    match near_time(time, delta, change) {
        Some(after) => Ok(after),
        None => far_time(time, i128::from(delta) + change),
    }
}

/// Times and steps below this bound have sums of 64 bits.
const FAR: i64 = 0x2000_0000_0000_0000;

const FAR_STEP: u64 = 0x2000_0000_0000_0000;

#[inline(always)]
fn is_near(number: i64) -> bool
    ensures { IsTrue result → (negsuc (2 ^ 61) ≤ℤ number) × (number ≤ℤ pos (2 ^ 61)) }
{
    -FAR <= number && number < FAR
}

/// The time after a step, computed in 64 bits, where these hold all sums and no refusal is due.
#[inline(always)]
pub(crate) fn near_time(time: i64, delta: u64, change: i128) -> Option<(i64, u64)>
    ensures after { IfSome result (λ x. time_after time (pos delta +ℤ change) ≡ Ok x) }
    ensures steps { IfSome result (λ x. (0 < x.1) × (x.1 < soon_limit)) }
{
    let Ok(change) = i64::try_from(change) else {
        return None;
    };
    if delta >= FAR_STEP || !is_near(change) || !is_near(time) {
        return None;
    }
    let delta = delta as i64 + change;
    if delta <= 0 {
        return None;
    }
    Some((time + delta, delta as u64))
}

/// The time after any step. Its temporaries stand here, off the fast path.
#[inline(always)]
fn far_time(time: i64, delta: i128) -> Result<(i64, u64), XorRefusal>
    requires low { negsuc (2 ^ 65) ≤ℤ delta }
    requires high { delta ≤ℤ pos (2 ^ 65) }
    ensures { Answers (λ x. x) result (time_after time delta) }
{
    let (after, delta) = wide_time(time, delta)?;
    Ok((after, delta))
}

/// The time that comes `delta` after another, and `delta` itself.
#[cold]
#[inline(never)]
fn wide_time(time: i64, delta: i128) -> Result<(i64, u64), XorRefusal>
    requires low { negsuc (2 ^ 65) ≤ℤ delta }
    requires high { delta ≤ℤ pos (2 ^ 65) }
    ensures { Answers (λ x. x) result (time_after time delta) }
{
    let Ok(after) = i64::try_from(i128::from(time) + delta) else {
        return Err(XorRefusal::OutOfRange);
    };
    if delta < 1 {
        return Err(XorRefusal::Falling);
    }
    Ok((after, delta as u64))
}

/// The next bits as a number.
#[inline(always)]
fn take(reader: &mut BitReader<'_>, count: u32) -> Result<u64, XorRefusal>
    requires { count ≤ 64 }
    ensures read { Reads (λ n. n) reader.new result (take_at count reader.old) }
    ensures below { IfOk result (λ n. n < 2 ^ count) }
{
    Ok(reader.take_bits(count)?)
}

/// The next bits, which were peeked at, as a number.
#[inline(always)]
fn take_peeked(reader: &mut BitReader<'_>, count: u32) -> Result<u64, XorRefusal>
    requires { count ≤ 64 }
    ensures read { Reads (λ n. n) reader.new result (take_at count reader.old) }
    ensures below { IfOk result (λ n. n < 2 ^ count) }
{
    Ok(reader.take_peeked(count)?)
}

/// The pattern with the next bits put over the window's.
#[inline(always)]
#[tactic(auto, unfolding(crate::specs::Steps::within_at))]
fn take_within(
    reader: &mut BitReader<'_>,
    pattern: u64,
    window: Window,
) -> Result<(u64, Window), XorRefusal>
    ensures { Reads (λ x. x) reader.new result (within_at pattern window reader.old) }
{
    let field = take(reader, window.width())?;
    Ok((window.changed_pattern(pattern, field), window))
}

/// The next pattern, and the window after it, behind bits that were read from a word.
#[inline(always)]
fn take_value(
    reader: &mut BitReader<'_>,
    word: u64,
    known: u32,
    pattern: u64,
    window: Window,
) -> Result<(u64, Window), XorRefusal>
    requires known { known ≤ change_limit }
    requires word { Shows word (known + head_limit) reader.old }
    ensures { Reads (λ x. x) reader.new result (behind known (value_at pattern window) reader.old) }
{
    let head = word << known;
    if head >> 63 == 0 {
        take_peeked(reader, known + 1)?;
        return Ok((pattern, window));
    }
    if head >> 62 == 0b10 {
        take_peeked(reader, known + 2)?;
        return take_within(reader, pattern, window);
    }
    let told = take_peeked(reader, known + HEAD_LIMIT)?;
    take_within(reader, pattern, Window::told_by(told))
}

/// The sample whose step is `change` longer than the step before, behind `known` bits that were read from a word.
#[inline(always)]
fn follow_known(
    reader: &mut BitReader<'_>,
    word: u64,
    known: u32,
    last: Last,
    change: i128,
) -> Result<Last, XorRefusal>
    requires known { known ≤ change_limit }
    requires word { Shows word (known + head_limit) reader.old }
    requires low { negsuc (2 ^ 64) ≤ℤ change }
    requires high { change ≤ℤ pos (2 ^ 64) }
    ensures { Reads state_of reader.new result
        (behind known (follow_at (state_of last) change) reader.old) }
{
    let (pattern, window) = take_value(reader, word, known, last.pattern, last.window)?;
    if !window.is_inside() {
        return Err(XorRefusal::OutOfRange);
    }
    let (time, delta) = time_after(last.time, last.delta, change)?;
    Ok(Last {
        time,
        delta,
        pattern,
        window,
    })
}

/// The sample whose step is `change` longer than the step before.
#[inline(always)]
pub(crate) fn follow(
    reader: &mut BitReader<'_>,
    last: Last,
    change: i128,
) -> Result<Last, XorRefusal>
    requires low { negsuc (2 ^ 64) ≤ℤ change }
    requires high { change ≤ℤ pos (2 ^ 64) }
    ensures { Reads state_of reader.new result (follow_at (state_of last) change reader.old) }
{
    let word = reader.peek(HEAD_LIMIT);
    follow_known(reader, word, 0, last, change)
}

/// A row of changes in the bits at a word's top: the change, and how many bits tell it.
#[inline(always)]
fn row_in(word: u64, known: u32, width: u32) -> (i64, u32)
    requires known { known ≤ 4 }
    requires some { 0 < width }
    requires few { width ≤ wide_field }
    ensures change { result.0 ≡ field_value width (word / 2 ^ (64 - (known + width)) % 2 ^ width) }
    ensures length { result.1 ≡ known + width }
{
    let field = (word >> (64 - (known + width))) & ((1 << width) - 1);
    (field_value(width, field), known + width)
}

/// By how much a step has changed, and how many bits tell it, where fewer than 64 bits do.
#[inline(always)]
pub(crate) fn short_change(word: u64) -> Option<(i64, u32)>
    requires { word / 2 ^ 63 ≡ 1 }
    ensures told { IfSome result (λ x. (bits : List Bool) → Shows word change_limit bits
        → change_at bits ≡ behind x.1 (λ after. Ok (x.0, after)) bits) }
    ensures few { IfSome result (λ x. x.1 ≤ change_limit) }
    ensures none { IfNone result (word / 2 ^ 60 ≡ 15) }
{
    if word >> 62 == 0b10 {
        Some(row_in(word, 2, NARROW_FIELD))
    } else if word >> 61 == 0b110 {
        Some(row_in(word, 3, MIDDLE_FIELD))
    } else if word >> 60 == 0b1110 {
        Some(row_in(word, 4, WIDE_FIELD))
    } else {
        None
    }
}

/// By how much a step has changed, told in a field of 64 bits.
#[inline(always)]
fn take_long_change(reader: &mut BitReader<'_>) -> Result<i64, XorRefusal>
    requires { front 4 reader.old ≡ 15 }
    ensures { Reads (λ z. z) reader.new result (change_at reader.old) }
{
    take(reader, 4)?;
    let field = take(reader, 64)?;
    Ok(field.cast_signed())
}

/// The next sample, after the second, and the reader behind it.
#[inline(always)]
pub(crate) fn next<'a>(
    mut reader: BitReader<'a>,
    last: Last,
) -> Result<(Last, BitReader<'a>), XorRefusal>
    ensures { Answers (λ x. (state_of x.0, x.1)) result (next_at (state_of last) reader.entry) }
{
    let word = reader.peek(PEEKED);
    if word >> 63 == 0 {
        let after = follow_known(&mut reader, word, 1, last, 0)?;
        return Ok((after, reader));
    }
    let Some((change, known)) = short_change(word) else {
        return next_by_long_change(reader, last);
    };
    let after = follow_known(&mut reader, word, known, last, i128::from(change))?;
    Ok((after, reader))
}

/// The next sample, whose step's change stands in a field of 64 bits. Its temporaries stand here, off
/// the fast path.
#[inline(always)]
fn next_by_long_change<'a>(
    reader: BitReader<'a>,
    last: Last,
) -> Result<(Last, BitReader<'a>), XorRefusal>
    requires { front 4 reader ≡ 15 }
    ensures { Answers (λ x. (state_of x.0, x.1)) result (next_at (state_of last) reader.entry) }
{
    let (after, reader) = next_slowly(reader, last)?;
    Ok((after, reader))
}

#[cold]
#[inline(never)]
#[tactic(auto, unfolding(crate::specs::Steps::next_at))]
fn next_slowly<'a>(
    mut reader: BitReader<'a>,
    last: Last,
) -> Result<(Last, BitReader<'a>), XorRefusal>
    requires { front 4 reader ≡ 15 }
    ensures { Answers (λ x. (state_of x.0, x.1)) result (next_at (state_of last) reader.entry) }
{
    let change = take_long_change(&mut reader)?;
    let after = follow(&mut reader, last, i128::from(change))?;
    Ok((after, reader))
}

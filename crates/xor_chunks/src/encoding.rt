//! Samples as XOR data: a time costs how much its step has changed, and a value the bits that did. So a series that is
//! scraped evenly and does not change takes two bits a sample.

ghost use Rattle.std.specs.Prelude.{◌≡◌, ◌++◌, ◌∷◌, ℕ, pos, negsuc, ◌≤ℤ◌, ◌<ℤ◌, ◌-ℤ◌, ◌^◌, ◌<◌, ◌≤◌, length, IfOk, OnOk, bit_xor};
ghost use Rattle.xor_chunks.specs.Widths.{wide_field, change_limit, filling};
ghost use Rattle.xor_chunks.specs.Written.{fits_field, change_bits, reused, value_bits, window_after, CanFollow, put_after, next_bits, AreToCome, ArePatterns, others_bits, rest_bits, put_first, written, AreOfChunk};
ghost use Rattle.wire_bytes.specs.Written.{varint_text};
ghost use Rattle.xor_chunks.specs.Grammar.{IsText};
ghost use Rattle.base.specs.Grammar.{IsBytes};
ghost use Rattle.wire_bytes.specs.Bits.{bits_of, bits_in, filled};

use crate::pending_bits::PendingBits;
use crate::widths::{LEAD_FIELD, MIDDLE_FIELD, NARROW_FIELD, WIDE_FIELD, WIDTH_FIELD};
use crate::window::Window;
use base::NoMemory;
use label_sets::Sample;
use std::alloc::Global;
use wire_bytes::{BitWriter, Blob, put_u16, put_u64, put_uvarint, put_varint};

/// The window that was set last, if any was.
#[derive(Clone, Copy)]
pub(crate) enum WindowSetting {
    Unset,
    Set(Window),
}

/// What is known of the samples that were put: the last of them, how long it came after the one before it, and the window
/// that was set.
#[derive(Clone, Copy)]
pub(crate) struct LastWritten {
    pub time: i64,
    pub delta: i64,
    pub pattern: u64,
    pub window: WindowSetting,
}

/// Whether a field of `width` bits can stand for the number.
#[inline(always)]
fn fits_field(width: u32, number: i64) -> bool
    requires some { 0 < width }
    requires short { width < 32 }
    ensures { result ≡ fits_field width number }
{
    let middle = 1i64 << (width - 1);
    -middle < number && number <= middle
}

/// Bits that say what follows, and behind them the low bits of a number.
#[inline(always)]
fn row(known: u64, count: u32, width: u32, number: u64) -> PendingBits
    requires few { count ≤ 4 }
    requires short { width ≤ wide_field }
    ensures bits { result ≡ bits_of count known ++ bits_of width number }
    ensures length { length result ≤ change_limit }
{
    PendingBits::none()
        .and_field(count, known)
        .and_field(width, number)
}

/// Puts by how much a step is longer than the step before it, but for bits that are still to be put.
#[inline(always)]
fn put_change(writer: &mut BitWriter, change: i64) -> Result<PendingBits, NoMemory>
    ensures bits { IfOk result (λ code. writer.new ++ code ≡ writer.old ++ change_bits change) }
    ensures short { IfOk result (λ code. length code ≤ change_limit) }
{
    let bits = change.cast_unsigned();
    if change == 0 {
        return Ok(row(0, 1, 0, 0));
    }
    if fits_field(NARROW_FIELD, change) {
        return Ok(row(0b10, 2, NARROW_FIELD, bits));
    }
    if fits_field(MIDDLE_FIELD, change) {
        return Ok(row(0b110, 3, MIDDLE_FIELD, bits));
    }
    if fits_field(WIDE_FIELD, change) {
        return Ok(row(0b1110, 4, WIDE_FIELD, bits));
    }
    writer.put_bits(0b1111, 4)?;
    writer.put_bits(bits, 64)?;
    Ok(PendingBits::none())
}

/// The window that was set, where it is around a change.
#[inline(always)]
fn window_to_reuse(window: WindowSetting, change: u64) -> WindowSetting
    ensures { result ≡ reused window change }
{
    match window {
        WindowSetting::Set(set) if set.is_around(change) => WindowSetting::Set(set),
        _ => WindowSetting::Unset,
    }
}

/// Puts the bits that are still to be put and those of a change of the pattern, and gives the window
/// that is set then.
#[inline(always)]
fn put_value(
    writer: &mut BitWriter,
    code: PendingBits,
    change: u64,
    window: WindowSetting,
) -> Result<WindowSetting, NoMemory>
    requires { length code ≤ change_limit }
    ensures bits { OnOk result (writer.new ≡ writer.old ++ code ++ value_bits window change) }
    ensures window { IfOk result (λ after. after ≡ window_after window change) }
{
    if change == 0 {
        code.and_field(1, 0).put(writer)?;
        return Ok(window);
    }
    if let WindowSetting::Set(set) = window_to_reuse(window, change) {
        code.and_field(2, 0b10).put(writer)?;
        writer.put_bits(set.field(change), set.width())?;
        return Ok(WindowSetting::Set(set));
    }
    let set = Window::around(change);
    code.and_field(2, 0b11)
        .and_field(LEAD_FIELD, u64::from(set.lead()))
        .and_field(WIDTH_FIELD, u64::from(set.width()))
        .put(writer)?;
    writer.put_bits(set.field(change), set.width())?;
    Ok(WindowSetting::Set(set))
}

/// Puts the next sample, after the second.
#[inline(always)]
fn put_next(
    writer: &mut BitWriter,
    put: LastWritten,
    sample: Sample,
) -> Result<LastWritten, NoMemory>
    requires { CanFollow put sample }
    ensures bits { OnOk result (writer.new ≡ writer.old ++ next_bits put sample) }
    ensures put { IfOk result (λ after. after ≡ put_after put sample) }
    ensures pattern { sample.pattern < 2 ^ 64 }
{
    let delta = sample.time - put.time;
    let code = put_change(writer, delta - put.delta)?;
    let window = put_value(writer, code, put.pattern ^ sample.pattern, put.window)?;
    Ok(LastWritten {
        time: sample.time,
        delta,
        pattern: sample.pattern,
        window,
    })
}

/// Puts the samples after the second.
fn put_others(
    mut writer: BitWriter,
    second: LastWritten,
    samples: &[Sample],
) -> Result<BitWriter, NoMemory>
    requires { AreToCome second samples.now }
    ensures bits { IfOk result (λ w. w ≡ writer ++ others_bits second samples.now) }
    ensures patterns { OnOk result (ArePatterns samples.now) }
{
    let LastWritten {
        mut time,
        mut delta,
        mut pattern,
        mut window,
    } = second;
    for sample in samples {
        let put = LastWritten {
            time,
            delta,
            pattern,
            window,
        };
        let after = put_next(&mut writer, put, *sample)?;
        time = after.time;
        delta = after.delta;
        pattern = after.pattern;
        window = after.window;
    }
    Ok(writer)
}

/// Puts the second sample and those after it behind the bytes.
fn put_from_second(
    mut bytes: Vec<u8>,
    first: Sample,
    second: Sample,
    others: &[Sample],
) -> Result<BitWriter, NoMemory>
    requires next { CanFollow (put_first first) second }
    requires others { AreToCome (put_after (put_first first) second) others.now }
    ensures bits { IfOk result (λ w. w
        ≡ bits_in bytes.items ++ rest_bits (put_first first) (second ∷ others.now)) }
    ensures patterns { OnOk result (ArePatterns (second ∷ others.now)) }
{
    put_uvarint(&mut bytes, second.time.abs_diff(first.time))?;
    let mut writer = BitWriter::from_bytes(bytes);
    let change = first.pattern ^ second.pattern;
    let window = put_value(
        &mut writer,
        PendingBits::none(),
        change,
        WindowSetting::Unset,
    )?;
    let put = LastWritten {
        time: second.time,
        delta: second.time - first.time,
        pattern: second.pattern,
        window,
    };
    put_others(writer, put, others)
}

/// Puts the samples after the first behind the bytes.
fn put_rest(bytes: Vec<u8>, first: Sample, samples: &[Sample]) -> Result<BitWriter, NoMemory>
    requires { AreToCome (put_first first) samples.now }
    ensures bits { IfOk result (λ w. w
        ≡ bits_in bytes.items ++ rest_bits (put_first first) samples.now) }
    ensures patterns { OnOk result (ArePatterns samples.now) }
{
    match samples.split_first() {
        Some((second, others)) => put_from_second(bytes, first, *second, others),
        None => Ok(BitWriter::from_bytes(bytes)),
    }
}

/// The bytes of how many samples there are and of the first, with room for eight bytes of each sample, which most take at most.
fn head_of(alloc: Global, count: u16, first: Sample) -> Result<Vec<u8>, NoMemory>
    ensures bits { IfOk result (λ bytes. bits_in bytes.items
        ≡ bits_of 16 count ++ bits_in (varint_text first.time) ++ bits_of 64 first.pattern) }
    ensures pattern { first.pattern < 2 ^ 64 }
{
    let mut bytes = Vec::new(alloc);
    bytes.reserve(32 + 8 * usize::from(count))?;
    put_u16(&mut bytes, count)?;
    put_varint(&mut bytes, first.time)?;
    put_u64(&mut bytes, first.pattern)?;
    Ok(bytes)
}

/// The XOR data of samples.
pub fn encode(alloc: Global, samples: &[Sample]) -> Result<Blob, NoMemory>
    requires { AreOfChunk samples.now }
    ensures exact { IfOk result (λ blob. bits_in blob ≡ filled (written samples.now)) }

    // The bytes stand for the samples, so that they are decoded to them.
    ensures text { IfOk result (λ blob. IsText filling blob samples.now) }
    ensures bytes { IfOk result (λ blob. IsBytes blob) }
{
    let first = samples[0];
    let bytes = head_of(alloc, samples.len() as u16, first)?;
    let writer = put_rest(bytes, first, &samples[1..])?;
    Ok(writer.finish())
}

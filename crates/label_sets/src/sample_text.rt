//! The samples of a series as text. A few at a time are written to the end of a field, from the last sign to the first, and are then
//! copied at once.

ghost use Rattle.std.specs.Prelude.{◌≡◌, ◌+◌, ◌/◌, ◌%◌, ◌<◌, ◌≤◌, ◌∷◌, ◌++◌, drop, take, length, OnOk};
ghost use Rattle.std.specs.Fmt.{signed_decimal};
ghost use Rattle.std.specs.List.{flat_map};
ghost use Rattle.label_sets.specs.Characters.{space};
ghost use Rattle.label_sets.specs.SampleFields.{field_length, most_at_once, sample_room, time_length};
ghost use Rattle.label_sets.specs.SampleText.{hex_sign, pattern_length, pattern_text, spaced_sample_text, timed_text};

use crate::Sample;
use base::NoMemory;
use itoa::write_digits;

/// How much room each sample has in a field: for a space, a sign, 19 digits, a colon and 16 signs of the pattern, and some more.
const ROOM: usize = 40;

/// How many samples a field has room for.
const AT_ONCE: usize = 12;

/// The length of a field.
const FIELD: usize = AT_ONCE * ROOM;

/// How many signs a pattern has.
pub(crate) const PATTERN: usize = 16;

/// The two signs of each number below 256 in base 16.
static SIGNS: [u8; 512] = *b"\
    000102030405060708090a0b0c0d0e0f\
    101112131415161718191a1b1c1d1e1f\
    202122232425262728292a2b2c2d2e2f\
    303132333435363738393a3b3c3d3e3f\
    404142434445464748494a4b4c4d4e4f\
    505152535455565758595a5b5c5d5e5f\
    606162636465666768696a6b6c6d6e6f\
    707172737475767778797a7b7c7d7e7f\
    808182838485868788898a8b8c8d8e8f\
    909192939495969798999a9b9c9d9e9f\
    a0a1a2a3a4a5a6a7a8a9aaabacadaeaf\
    b0b1b2b3b4b5b6b7b8b9babbbcbdbebf\
    c0c1c2c3c4c5c6c7c8c9cacbcccdcecf\
    d0d1d2d3d4d5d6d7d8d9dadbdcdddedf\
    e0e1e2e3e4e5e6e7e8e9eaebecedeeef\
    f0f1f2f3f4f5f6f7f8f9fafbfcfdfeff";

/// Appends each sample after a space, or a part of them where memory runs out.
pub(crate) fn put_samples(out: &mut Vec<u8>, samples: &[Sample]) -> Result<(), NoMemory>
    ensures ok { OnOk result
        (out.new.items ≡ out.old.items ++ flat_map spaced_sample_text samples.now) }
    ensures kept { take (length out.old.items) out.new.items ≡ out.old.items }
{
    let mut field = [b' '; FIELD];
    let mut left = samples;
    while !left.is_empty() {
        let (part, after) = left.split_at(left.len().min(AT_ONCE));
        let start = write_samples(part, &mut field);
        out.extend_from_slice(&field[start..])?;
        left = after;
    }
    Ok(())
}

/// Writes samples, each after a space, so that they end where the field does, and gives where they begin.
fn write_samples(samples: &[Sample], field: &mut [u8; FIELD]) -> usize
    requires { length samples.now ≤ most_at_once }
    ensures within { result ≤ field_length }
    ensures written { drop result field.new ≡ flat_map spaced_sample_text samples.now }
{
    let mut start = FIELD;
    for place in (0..samples.len()).rev() {
        start = write_sample(samples[place], field, start);
    }
    start
}

/// Writes a sample after a space before what stands from a place on, and gives where it begins.
#[inline(always)]
#[tactic(auto, unfolding(crate::specs::SampleText::spaced_sample_text, crate::specs::SampleText::sample_text))]
fn write_sample(sample: Sample, field: &mut [u8; FIELD], end: usize) -> usize
    requires room { sample_room ≤ end }
    requires within { end ≤ field_length }
    ensures before { result ≤ end }
    ensures near { end ≤ result + sample_room }
    ensures written { drop result field.new ≡ spaced_sample_text sample ++ drop end field.old }
{
    write_timed(sample.time, sample.pattern, field, end)
}

/// Writes a time and a pattern after a space before what stands from a place on, and gives where they begin.
#[inline(always)]
fn write_timed(time: i64, pattern: u64, field: &mut [u8; FIELD], end: usize) -> usize
    requires room { sample_room ≤ end }
    requires within { end ≤ field_length }
    ensures before { result ≤ end }
    ensures near { end ≤ result + sample_room }
    ensures written { drop result field.new
        ≡ (space ∷ timed_text time pattern) ++ drop end field.old }
{
    let place = end - PATTERN;
    write_pattern(pattern, field, place);
    field[place - 1] = b':';
    let start = write_time(time, field, place - 1);
    field[start - 1] = b' ';
    start - 1
}

/// Writes the signs of a pattern from a place on.
#[inline(always)]
fn write_pattern(pattern: u64, field: &mut [u8; FIELD], place: usize)
    requires { place + pattern_length ≤ field_length }
    ensures { drop place field.new
        ≡ pattern_text pattern ++ drop (place + pattern_length) field.old }
{
    let mut rest = pattern;
    for pair in (0..8).rev() {
        let (high, low) = sign_pair(rest % 256);
        field[place + 2 * pair + 1] = low;
        field[place + 2 * pair] = high;
        rest /= 256;
    }
}

/// The two signs of a number.
#[inline(always)]
fn sign_pair(number: u64) -> (u8, u8)
    requires { number < 256 }
    ensures high { result.0 ≡ hex_sign (number / 16) }
    ensures low { result.1 ≡ hex_sign (number % 16) }
{
    let place = number as usize * 2;
    (SIGNS[place], SIGNS[place + 1])
}

/// Writes a time's text before what stands from a place on, and gives where it begins.
#[inline(always)]
fn write_time(time: i64, field: &mut [u8; FIELD], end: usize) -> usize
    requires room { time_length < end }
    requires within { end ≤ field_length }
    ensures before { result ≤ end }
    ensures near { end ≤ result + time_length }
    ensures written { drop result field.new ≡ signed_decimal time ++ drop end field.old }
{
    let start = write_digits(time.unsigned_abs(), field, end);
    if time >= 0 {
        return start;
    }
    field[start - 1] = b'-';
    start - 1
}

//! A sample as scripts and reports spell it. Its value is a pattern of 64 bits that nobody computes with, so that every
//! NaN, and with it the marker of a series that went stale, comes out as it went in.

ghost use Rattle.std.specs.Prelude.{◌≡◌, ◌≢◌, ◌↔◌, ◌<◌, ◌^◌, ℕ, ℤ, length, true, IsTrue, IfOk, Err, Ok};
ghost use Rattle.std.specs.Char.{digit_value};
ghost use Rattle.std.specs.Int.{w64};
ghost use Rattle.std.specs.Int.RustNames.{FitsSigned};
ghost use Rattle.std.specs.List.{list_all};
ghost use Rattle.std.specs.List.Sorted.{IsStrictlySortedBy};
ghost use Rattle.std.specs.Ordering.{int_cmp};
ghost use Rattle.std.specs.Str.Parse.{digits_value};
ghost use Rattle.label_sets.specs.SampleText.{timed_text, sample_text, is_hex_sign, pattern_length, pattern_of, sample_of};
ghost use Rattle.label_sets.specs.Times.{is_within, times_of};

use crate::sample_text::PATTERN;
use base::{List, NoMemory, NumberRefusal, TryCopy, read_signed};

/// Why a text is no sample.
#[derive(Clone, Copy, Debug, PartialEq, Eq)]
pub enum SampleRefusal {
    /// The text is not a decimal time, a colon and a pattern of 16 lower-case hexadecimal digits.
    NotASample,
    /// The time is a decimal number that does not fit 64 bits.
    OutOfRange,
}

/// How far from 0 the times of blocks and scripts may be, in milliseconds.
pub const TIME_LIMIT: i64 = 1 << 62;

/// A time in milliseconds and a value, which is a pattern of 64 bits.
#[derive(Clone, Copy, Debug, PartialEq, Eq)]
pub struct Sample {
    pub time: i64,
    pub pattern: u64,
}

/// A list of samples.
pub type SampleList = List<Sample>;

impl TryCopy for Sample {
    fn copy(&self) -> Result<Self, NoMemory> {
        Ok(*self)
    }
}

impl Sample {
    ghost use Rattle.label_sets.specs.declared.sample.Sample.{Sample};

    /// Reads `TIME:PATTERN`: a decimal time, and 16 lower-case hexadecimal digits.
    pub fn read(text: &str) -> Result<Sample, SampleRefusal>
        // What is read is the text of the sample, and each sample is read from its text.
        ensures found { IfOk result (λ sample. text.now ≡ sample_text sample) }
        ensures only { (sample : Sample) → FitsSigned w64 sample.time → sample.pattern < 2 ^ 64
            → text.now ≡ sample_text sample → result ≡ Ok sample }

        // Which refusal it is.
        ensures out_of_range { (result ≡ Err SampleRefusal.OutOfRange)
            ↔ ((time : ℤ) × (pattern : ℕ) × (¬ FitsSigned w64 time) × (pattern < 2 ^ 64)
            × (text.now ≡ timed_text time pattern)) }
        ensures no_sample { (result ≡ Err SampleRefusal.NotASample)
            ↔ ((time : ℤ) (pattern : ℕ) → pattern < 2 ^ 64 → text.now ≢ timed_text time pattern) }

        ensures gives { result ≡ sample_of text.now }
    {
        read_sample(text)
    }
}

/// Whether each time is after the one before.
pub fn times_ascend(samples: &[Sample]) -> bool
    ensures { IsTrue result ↔ IsStrictlySortedBy int_cmp (times_of samples.now) }
{
    samples.is_sorted_by(|one, next| one.time < next.time)
}

/// Whether a sample was taken at the first time or after it, and before the last.
pub fn is_within(sample: &Sample, first: i64, last: i64) -> bool
    ensures { result ≡ is_within first last sample.now }
{
    first <= sample.time && sample.time < last
}

#[tactic(auto, unfolding(crate::specs::SampleText::sample_of, crate::specs::SampleText::sample_with))]
fn read_sample(text: &str) -> Result<Sample, SampleRefusal>
    ensures { result ≡ sample_of text.now }
{
    let Some((time, pattern)) = text.split_once(':') else {
        return Err(SampleRefusal::NotASample);
    };
    let Some(pattern) = read_pattern(pattern) else {
        return Err(SampleRefusal::NotASample);
    };
    match read_signed(time) {
        Ok(time) => Ok(Sample { time, pattern }),
        Err(NumberRefusal::NotANumber) => Err(SampleRefusal::NotASample),
        Err(NumberRefusal::TooLarge) => Err(SampleRefusal::OutOfRange),
    }
}

/// Reads the digits of a pattern.
#[tactic(auto, using(crate::proofs::HexTexts::pattern_read, crate::proofs::HexTexts::pattern_unread), unfolding(crate::specs::SampleText::pattern_of))]
fn read_pattern(digits: &str) -> Option<u64>
    ensures { result ≡ pattern_of digits.now }
{
    let signs = digits.as_bytes();
    if signs.len() == PATTERN && are_hex_signs(signs) {
        Some(hex_number(signs))
    } else {
        None
    }
}

/// The number of so many digits, made with no test.
fn hex_number(signs: &[u8]) -> u64
    requires count { length signs.now ≡ pattern_length }
    requires hex { list_all is_hex_sign signs.now ≡ true }
    ensures { result ≡ digits_value 16 signs.now }
{
    let mut number = 0u64;
    for sign in signs {
        number = number * 16 + u64::from(hex_digit(*sign));
    }
    number
}

#[tactic(auto, using(crate::proofs::HexTexts::figure_value, crate::proofs::HexTexts::letter_least, crate::proofs::HexTexts::letter_value))]
fn hex_digit(sign: u8) -> u8
    requires { is_hex_sign sign ≡ true }
    ensures { result ≡ digit_value sign }
{
    if sign.is_ascii_digit() {
        sign - b'0'
    } else {
        sign - b'a' + 10
    }
}

fn are_hex_signs(digits: &[u8]) -> bool
    ensures { result ≡ list_all is_hex_sign digits.now }
{
    digits.iter().all(|digit| is_hex_sign(*digit))
}

#[tactic(auto, unfolding(crate::specs::SampleText::is_hex_sign))]
fn is_hex_sign(byte: u8) -> bool
    ensures { result ≡ is_hex_sign byte }
{
    byte.is_ascii_digit() || (b'a' <= byte && byte <= b'f')
}

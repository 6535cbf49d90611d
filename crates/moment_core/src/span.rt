//! Lengths of time as the rules of a script have them: one number and one unit, such as `30m` or `48h`, and no sum of
//! several.

ghost use Rattle.std.specs.Prelude.{◌≡◌, ◌≤◌, ◌↔◌, ℕ, IfOk, IsErr, IsOkAnd, length};
ghost use Rattle.std.specs.List.{position, position_or_len};
ghost use Rattle.std.specs.Option.{option_map};
ghost use Rattle.std.specs.Result.{result_ok};
ghost use Rattle.moment_core.specs.SpanText as words;

use crate::BadSpan;
use base::{NoMemory, TryCopy, short_number};

/// A second, in milliseconds.
pub const SECOND: u64 = 1_000;

/// A minute, in milliseconds.
pub const MINUTE: u64 = 60 * SECOND;

/// An hour, in milliseconds.
pub const HOUR: u64 = 60 * MINUTE;

/// How many digits the number of a span has at most.
const MOST_DIGITS: usize = 12;

/// The greatest span: 2^46 milliseconds.
const GREATEST: u64 = 1 << 46;

/// A length of time in milliseconds.
#[derive(Clone, Copy, Debug, PartialEq, Eq, PartialOrd, Ord)]
pub struct Span {
    pub ms: u64,
}

impl Span {
    ghost use Rattle.moment_core.specs.SpanText.{IsSpanText, span_of};

    /// Reads 1 to 12 decimal digits and one of the units `ms`, `s`, `m` and `h`.
    pub fn read(text: &str) -> Result<Span, BadSpan>
        ensures gives { option_map (λ span. span.ms) (result_ok result) ≡ span_of text.now }
        ensures found { IfOk result (λ span. IsSpanText text.now span.ms) }
        ensures only { (ms : ℕ) → IsSpanText text.now ms → IsOkAnd result (λ span. span.ms ≡ ms) }
        ensures none { IsErr result ↔ ((ms : ℕ) → ¬ IsSpanText text.now ms) }
    {
        match read_ms(text) {
            Some(ms) => Ok(Span { ms }),
            None => Err(BadSpan),
        }
    }
}

impl TryCopy for Span {
    fn copy(&self) -> Result<Self, NoMemory>
        ensures { result ≡ Ok self.now }
    {
        Ok(*self)
    }
}

#[tactic(auto, unfolding(crate::specs::SpanText::span_of))]
fn read_ms(text: &str) -> Option<u64>
    ensures { result ≡ words.span_of text.now }
{
    let (digits, unit) = text.as_bytes().split_at(digit_count(text.as_bytes()));
    span_within(short_number(digits, MOST_DIGITS), unit_of(unit))
}

/// How many decimal digits the text begins with.
#[tactic(auto, using(crate::proofs::SpanLaws::place_or_length))]
fn digit_count(text: &[u8]) -> usize
    ensures value { result ≡ position_or_len words.is_no_digit text.now }
    ensures bound { result ≤ length text.now }
{
    first_non_digit(text).unwrap_or(text.len())
}

fn first_non_digit(text: &[u8]) -> Option<usize>
    ensures { result ≡ position words.is_no_digit text.now }
{
    text.iter().position(|byte| !byte.is_ascii_digit())
}

/// So many of a unit, if they are a span.
fn span_within(number: Option<u64>, each: Option<u64>) -> Option<u64>
    ensures { result ≡ words.span_within number each }
{
    let ms = number?.checked_mul(each?)?;
    if ms <= GREATEST { Some(ms) } else { None }
}

/// How many milliseconds a unit has.
#[tactic(auto, unfolding(crate::specs::SpanText::unit_of))]
fn unit_of(unit: &[u8]) -> Option<u64>
    ensures { result ≡ words.unit_of unit.now }
{
    match unit {
        b"ms" => Some(1),
        b"s" => Some(SECOND),
        b"m" => Some(MINUTE),
        b"h" => Some(HOUR),
        _ => None,
    }
}

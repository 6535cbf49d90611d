//! Decimal numbers of scripts and reports. Each number has one text: no needless zero in front, no plus and no `-0`, so
//! that a text that is read and written again is the same.

ghost use Rattle.std.specs.Prelude.{◌≡◌, ◌++◌, ◌^◌, ◌<◌, ◌≤◌, ◌≢◌, ◌↔◌, ◌==◌, ℕ, ℤ, true, not, IsTrue, IfOk, IfSome, OnOk, OnErr, Ok, Err};
ghost use Rattle.std.specs.Int.{w64};
ghost use Rattle.std.specs.Int.RustNames.{FitsSigned};
ghost use Rattle.std.specs.Str.Parse.{digits_value};
ghost use Rattle.base.specs.Decimal.{is_decimal, is_signed_decimal, unsigned_of, signed_of, decimal_text, signed_text};

use crate::NoMemory;
use crate::digits::{FEW_DIGITS, all_digits, value_of};
use itoa::Buffer;

/// Why a text is no number.
#[derive(Clone, Copy, Debug, PartialEq, Eq)]
pub enum NumberRefusal {
    /// The text is not decimal digits without a needless zero in front.
    NotANumber,
    /// The number does not fit its type.
    TooLarge,
}

/// Reads decimal digits without a needless zero in front.
pub fn read_unsigned(text: &str) -> Result<u64, NumberRefusal>
    // What is read is the text of the number, and each number that fits is read from its text.
    ensures found { IfOk result (λ n. text.now ≡ decimal_text n) }
    ensures only { (n : ℕ) → n < 2 ^ 64 → text.now ≡ decimal_text n → result ≡ Ok n }

    // Which refusal it is.
    ensures too_large { (result ≡ Err NumberRefusal.TooLarge)
        ↔ ((n : ℕ) × (2 ^ 64 ≤ n) × (text.now ≡ decimal_text n)) }
    ensures no_number { (result ≡ Err NumberRefusal.NotANumber)
        ↔ ((n : ℕ) → text.now ≢ decimal_text n) }

    ensures exact { result ≡ unsigned_of text.now }
{
    unsigned_exact(text)
}

/// Reads decimal digits without a needless zero in front, which may have `-` before them. `-0` is no number.
pub fn read_signed(text: &str) -> Result<i64, NumberRefusal>
    // What is read is the text of the number, and each number that fits is read from its text.
    ensures found { IfOk result (λ n. text.now ≡ signed_text n) }
    ensures only { (n : ℤ) → FitsSigned w64 n → text.now ≡ signed_text n → result ≡ Ok n }

    // Which refusal it is.
    ensures too_large { (result ≡ Err NumberRefusal.TooLarge)
        ↔ ((n : ℤ) × (¬ FitsSigned w64 n) × (text.now ≡ signed_text n)) }
    ensures no_number { (result ≡ Err NumberRefusal.NotANumber)
        ↔ ((n : ℤ) → text.now ≢ signed_text n) }

    ensures exact { result ≡ signed_of text.now }
{
    signed_exact(text)
}

/// Appends a number's decimal digits.
pub fn put_unsigned(out: &mut Vec<u8>, n: u64) -> Result<(), NoMemory>
    ensures ok { OnOk result (out.new.items ≡ out.old.items ++ decimal_text n) }
    ensures err { OnErr result (out.new.items ≡ out.old.items) }
{
    let mut digits = Buffer::new();
    out.extend_from_slice(digits.format(n).as_bytes())?;
    Ok(())
}

/// Appends a number's decimal digits, after `-` where it is below zero.
pub fn put_signed(out: &mut Vec<u8>, n: i64) -> Result<(), NoMemory>
    ensures ok { OnOk result (out.new.items ≡ out.old.items ++ signed_text n) }
    ensures err { OnErr result (out.new.items ≡ out.old.items) }
{
    let mut text = Buffer::new();
    out.extend_from_slice(text.format(n).as_bytes())?;
    Ok(())
}

// What each call above does; that it reads the texts of numbers and no others is its caller's.

fn unsigned_exact(text: &str) -> Result<u64, NumberRefusal>
    ensures { result ≡ unsigned_of text.now }
{
    let bytes = text.as_bytes();
    if let Some(number) = few_digits(bytes) {
        return Ok(number);
    }
    if !are_digits(bytes) {
        return Err(NumberRefusal::NotANumber);
    }
    text.parse().or(Err(NumberRefusal::TooLarge))
}

fn signed_exact(text: &str) -> Result<i64, NumberRefusal>
    ensures { result ≡ signed_of text.now }
{
    let bytes = text.as_bytes();
    if let Some(number) = few_digits(bytes) {
        return Ok(number as i64);
    }
    if !are_signed_digits(bytes) {
        return Err(NumberRefusal::NotANumber);
    }
    text.parse().or(Err(NumberRefusal::TooLarge))
}

/// The number of a text of few digits, as most are. What it does not take is left to `parse`, which tests after each digit
/// whether the number still fits.
#[tactic(auto, using(crate::proofs::FewDigits::digits_of_decimal, crate::proofs::FewDigits::few_small))]
fn few_digits(text: &[u8]) -> Option<u64>
    ensures { IfSome result (λ n.
        (is_decimal text.now ≡ true) × (n ≡ digits_value 10 text.now) × (n < 2 ^ 63)) }
{
    if text.len() <= FEW_DIGITS && are_digits(text) {
        Some(value_of(text))
    } else {
        None
    }
}

#[tactic(auto, unfolding(crate::specs::Decimal::is_decimal))]
fn are_digits(text: &[u8]) -> bool
    ensures { result ≡ is_decimal text.now }
{
    !text.is_empty() && (text[0] != b'0' || text.len() == 1) && all_digits(text)
}

#[tactic(auto, unfolding(crate::specs::Decimal::is_signed_decimal))]
fn are_signed_digits(text: &[u8]) -> bool
    ensures { result ≡ is_signed_decimal text.now }
{
    match text {
        [b'-', b'0', ..] => false,
        [b'-', digits @ ..] => are_digits(digits),
        _ => are_digits(text),
    }
}

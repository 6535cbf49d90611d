//! The alphabet of ULIDs: digits and upper-case letters without I, L, O and U. Lower case is refused, so that a ULID
//! has one text and a block one folder in its bucket.

ghost use Rattle.std.specs.Prelude.{◌≡◌, ◌≤◌, ◌<◌, ◌^◌, None, Some, IsSome, IfOk, length, slice_index};
ghost use Rattle.std.specs.Str.{byte};
ghost use Rattle.ulid_core.specs.UlidText as words;
ghost use Rattle.ulid_core.specs.UlidText.{text_length};

use crate::UlidRefusal;

pub(crate) const TEXT_LENGTH: usize = 26;

const ALPHABET: [u8; 32] = *b"0123456789ABCDEFGHJKMNPQRSTVWXYZ";

/// The character of a digit in base 32.
#[tactic(auto, unfolding(crate::specs::UlidText::character, crate::specs::UlidText::alphabet))]
pub(crate) fn character(digit: usize) -> u8
    requires { digit < 32 }
    ensures { result ≡ words.character digit }
{
    ALPHABET[digit]
}

/// The digit that a character stands for.
#[tactic(auto, using(crate::proofs::Tables::digits))]
fn digit_of(byte: u8) -> Option<u8>
    ensures { result ≡ words.digit_of byte }
{
    match byte {
        b'0'..=b'9' => Some(byte - b'0'),
        b'A'..=b'H' => Some(byte - b'A' + 10),
        b'J' | b'K' => Some(byte - b'J' + 18),
        b'M' | b'N' => Some(byte - b'M' + 20),
        b'P'..=b'T' => Some(byte - b'P' + 22),
        b'V'..=b'Z' => Some(byte - b'V' + 27),
        _ => None,
    }
}

/// Reads the number of a ULID's words.
#[tactic(auto, unfolding(crate::specs::UlidText::ulid_of))]
pub(crate) fn read_number(text: &str) -> Result<u128, UlidRefusal>
    ensures gives { result ≡ words.ulid_of text.now }
    ensures fits { IfOk result (λ number. number < 2 ^ 128) }
{
    let bytes = text.as_bytes();
    if bytes.len() != TEXT_LENGTH {
        return Err(UlidRefusal::BadLength);
    }
    if let Some(place) = first_bad_place(bytes) {
        return Err(UlidRefusal::BadCharacter(place));
    }
    if bytes[0] > b'7' {
        return Err(UlidRefusal::TooLarge);
    }
    Ok(number_of(bytes))
}

/// The first place of a byte that is no character.
#[tactic(auto, unfolding(crate::specs::UlidText::bad_place))]
fn first_bad_place(bytes: &[u8]) -> Option<usize>
    ensures { result ≡ words.bad_place bytes.now }
{
    bytes.iter().position(|byte| digit_of(*byte).is_none())
}

/// The digit that a character stands for, which is known to stand for one.
fn digit_at(byte: u8) -> u8
    requires { IsSome (words.digit_of byte) }
    ensures { words.digit_of byte ≡ Some result }
{
    digit_of(byte).unwrap()
}

/// The number that 26 characters write.
fn number_of(bytes: &[u8]) -> u128
    requires count { length bytes.now ≡ text_length }
    requires characters { words.bad_place bytes.now ≡ None }
    requires first { slice_index bytes.now 0 ≤ byte "7" }
    ensures value { result ≡ words.number_of bytes.now }
    ensures fits { result < 2 ^ 128 }
{
    let mut number = 0u128;
    for byte in bytes {
        number = number * 32 + u128::from(digit_at(*byte));
    }
    number
}

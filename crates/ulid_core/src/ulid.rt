//! The name of a block: the millisecond in which it was made, and 80 bits that are random where a server made it. The
//! greatest of each millisecond are kept for compacted blocks, so that these never share a name with a script's block.

ghost use Rattle.std.specs.Prelude.{◌≡◌, ◌≢◌, ◌↔◌, ℕ, ◌+◌, ◌*◌, ◌/◌, ◌%◌, ◌<◌, ◌++◌, length, slice_index, Some, None, Ok, Err, IfOk, OnOk, OnErr};
ghost use Rattle.std.specs.Str.{byte};
ghost use Rattle.std.specs.String.{string_bytes};
ghost use Rattle.std.specs.Cmp.Lexicographic.{slice_cmp};
ghost use Rattle.std.specs.Ordering.{nat_cmp};
ghost use Rattle.ulid_core.specs.UlidText.{IsUlidText, text_of, bad_place, ulid_of, text_length};
ghost use Rattle.ulid_core.specs.Limits.{ulid_time_limit, entropy_count};

use crate::characters::{TEXT_LENGTH, character, read_number};
use base::{List, NoMemory, TryCopy};
use std::alloc::Global;
use std::marker::Model;

/// The least entropy that is kept for compacted blocks: 2^80 - 2^20.
pub const LEAST_RESERVED: u128 = 0xffff_ffff_ffff_fff0_0000;

/// How many ULIDs of each millisecond are kept for compacted blocks.
pub const RESERVED_COUNT: u64 = 0x10_0000;

/// Why a text is no ULID.
#[derive(Clone, Copy, Debug, PartialEq, Eq)]
pub enum UlidRefusal {
    /// The text does not have 26 bytes.
    BadLength,
    /// The byte at this place is no character of the alphabet.
    BadCharacter(usize),
    /// The first character is above `7`, so the number passes 128 bits.
    TooLarge,
}

/// How many ULIDs have the same time: one for each entropy.
pub const ENTROPY_COUNT: u128 = 1 << 80;

/// A ULID: 48 bits of milliseconds, then 80 bits of entropy.
#[derive(Clone, Copy, Debug, PartialEq, Eq, PartialOrd, Ord)]
pub struct Ulid {
    number: u128,
}

impl Model for Ulid {
    ghost use Rattle.std.specs.Prelude.{ℕ, ◌<◌, ◌^◌};

    ghost Value = { ℕ };

    ghost view = { λ ulid. ulid.number };

    ghost invariant = { λ ulid. ulid.number < 2 ^ 128 };

    ghost inverse = { λ number. record { number = number } };
}

impl Ulid {
    /// Reads the 26 characters of the ULID specification, upper case only.
    pub fn read(text: &str) -> Result<Ulid, UlidRefusal>
        ensures gives { result ≡ ulid_of text.now }
        ensures found { IfOk result (IsUlidText text.now) }
        ensures only { (ulid : ℕ) → IsUlidText text.now ulid → result ≡ Ok ulid }

        // Which refusal it is.
        ensures length { (result ≡ Err UlidRefusal.BadLength) ↔ (length text.now ≢ text_length) }
        ensures character { (place : ℕ) → (result ≡ Err (UlidRefusal.BadCharacter place))
            ↔ ((length text.now ≡ text_length) × (bad_place text.now ≡ Some place)) }
        ensures large { (result ≡ Err UlidRefusal.TooLarge)
            ↔ ((length text.now ≡ text_length) × (bad_place text.now ≡ None)
            × (byte "7" < slice_index text.now 0)) }
    {
        read_ulid(text)
    }

    /// The 26 characters, most significant first.
    pub fn text(self) -> [u8; TEXT_LENGTH]
        ensures value { result ≡ text_of self }
        ensures written { IsUlidText result self }
    {
        let mut text = [b'0'; TEXT_LENGTH];
        let mut rest = self.number;
        for place in (0..TEXT_LENGTH).rev() {
            text[place] = character((rest % 32) as usize);
            rest /= 32;
        }
        text
    }

    /// The 26 characters as a string.
    pub fn to_string(self, alloc: Global) -> Result<String, NoMemory>
        ensures value { IfOk result (λ text. string_bytes text ≡ text_of self) }
        ensures written { IfOk result (λ text. IsUlidText (string_bytes text) self) }
    {
        let bytes = Vec::from_slice(alloc, &self.text())?;
        Ok(String::from_utf8(bytes).unwrap())
    }

    /// Appends the 26 characters.
    pub fn put_text(self, out: &mut Vec<u8>) -> Result<(), NoMemory>
        ensures ok { OnOk result (out.new.items ≡ out.old.items ++ text_of self) }
        ensures err { OnErr result (out.new.items ≡ out.old.items) }
    {
        out.extend_from_slice(&self.text())?;
        Ok(())
    }

    /// Milliseconds since 1970.
    pub fn time(self) -> u64
        ensures value { result ≡ self / entropy_count }
        ensures bound { result < ulid_time_limit }
    {
        (self.number >> 80) as u64
    }

    /// The 80 bits behind the time, random ones where a server made the ULID.
    pub fn entropy(self) -> u128
        ensures value { result ≡ self % entropy_count }
        ensures bound { result < entropy_count }
    {
        self.number % ENTROPY_COUNT
    }

    /// The ULID of milliseconds since 1970 and 80 bits behind them.
    pub fn from_parts(time: u64, entropy: u128) -> Ulid
        requires time_fits { time < ulid_time_limit }
        requires entropy_fits { entropy < entropy_count }
        ensures { result ≡ time * entropy_count + entropy }
    {
        Ulid {
            number: u128::from(time) * ENTROPY_COUNT + entropy,
        }
    }

    /// A law: the text of a ULID is read as that ULID.
    pub fn text_is_read(self)
        ensures { ulid_of (text_of self) ≡ Ok self }
    {
        let _number = self.number;
    }

    /// A law: texts are in the order of their ULIDs.
    pub fn texts_are_ordered(self, other: Ulid)
        ensures { slice_cmp nat_cmp (text_of self) (text_of other) ≡ nat_cmp self other }
    {
        let (_number, _other) = (self.number, other.number);
    }
}

fn read_ulid(text: &str) -> Result<Ulid, UlidRefusal>
    ensures { result ≡ ulid_of text.now }
{
    let number = read_number(text)?;
    Ok(Ulid { number })
}

impl TryCopy for Ulid {
    fn copy(&self) -> Result<Self, NoMemory>
        ensures { result ≡ Ok self.now }
    {
        Ok(*self)
    }
}

/// A list of ULIDs.
pub type UlidList = List<Ulid>;

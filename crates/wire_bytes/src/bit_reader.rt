//! Bits of a chunk's XOR data. Those that come next wait in a word, so that mostly shifts alone take them and the bytes
//! are seldom looked at: all samples of all chunks are decoded through it.

ghost use Rattle.std.specs.Prelude.{◌≡◌, ◌↔◌, ◌*◌, ◌-◌, ◌^◌, ◌<◌, ◌≤◌, ◌++◌, min, length, IsErr, IfOk, OnErr};
ghost use Rattle.wire_bytes.specs.Bits.{bits_of, bits_in};
ghost use Rattle.wire_bytes.specs.Buffer.{Shows, peek_limit};

use crate::refill::refill_word;
use crate::taking::{take_from, take_ready};
use std::marker::Model;

/// Fewer bits are left than were asked for.
#[derive(Clone, Copy, Debug, PartialEq, Eq)]
pub struct ShortBits;

/// Reads bits from bytes, the most significant first.
#[derive(Drop)]
pub struct BitReader<'a> {
    word: u64,
    count: u32,
    bytes: &'a [u8],
}

impl<'a> Model for BitReader<'a> {
    ghost use Rattle.std.specs.Prelude.{Bool, List};
    ghost use Rattle.wire_bytes.specs.Buffer.{IsBuffer, buffered};

    ghost Value = { List Bool };

    ghost view = { λ r. buffered r.word r.count r.bytes.now };

    ghost invariant = { λ r. IsBuffer r.word r.count };
}

impl<'a> BitReader<'a> {
    /// Reads the bits of these bytes.
    pub fn new(bytes: &'a [u8]) -> BitReader<'a>
        ensures { result ≡ bits_in bytes.now }
    {
        BitReader {
            word: 0,
            count: 0,
            bytes,
        }
    }

    /// How many bits are left; more than a `u64` counts are given as its greatest number.
    pub fn left(&self) -> u64
        ensures { result ≡ min (length self.now) (2 ^ 64 - 1) }
    {
        (self.bytes.len() as u64)
            .saturating_mul(8)
            .saturating_add(u64::from(self.count))
    }

    /// Takes the next bits as a number. At the end it stays where it is.
    #[inline(always)]
    pub fn take_bits(&mut self, count: u32) -> Result<u64, ShortBits>
        requires { count ≤ 64 }
        ensures taken { IfOk result (λ number. self.old ≡ bits_of count number ++ self.new) }
        ensures number { IfOk result (λ number. number < 2 ^ count) }
        ensures short { IsErr result ↔ (length self.old < count) }
        ensures err { OnErr result (self.new ≡ self.old) }
    {
        let Some((number, word, waiting, bytes)) = take_from(
            count, self.word, self.count, self.bytes,
        ) else {
            return Err(ShortBits);
        };
        self.word = word;
        self.count = waiting;
        self.bytes = bytes;
        Ok(number)
    }

    /// Takes bits that were just peeked at; for others it is slow.
    #[inline(always)]
    pub fn take_peeked(&mut self, count: u32) -> Result<u64, ShortBits>
        requires { count ≤ 64 }
        ensures taken { IfOk result (λ number. self.old ≡ bits_of count number ++ self.new) }
        ensures number { IfOk result (λ number. number < 2 ^ count) }
        ensures short { IsErr result ↔ (length self.old < count) }
        ensures err { OnErr result (self.new ≡ self.old) }
    {
        let Some((number, word, waiting, bytes)) = take_ready(
            count, self.word, self.count, self.bytes,
        ) else {
            return Err(ShortBits);
        };
        self.word = word;
        self.count = waiting;
        self.bytes = bytes;
        Ok(number)
    }

    /// A word at whose top stand the next bits, as many as are asked for, with zero bits past the end.
    #[inline(always)]
    pub fn peek(&mut self, count: u32) -> u64
        requires { count ≤ peek_limit }
        ensures same { self.new ≡ self.old }
        ensures bits { Shows result count self.old }
    {
        let (word, waiting, bytes) = refill_word(count, self.word, self.count, self.bytes);
        self.word = word;
        self.count = waiting;
        self.bytes = bytes;
        word
    }
}

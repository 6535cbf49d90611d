//! The reader under all formats of a block: indexes, segments and the heads of chunks are read through it, field by
//! field. A refusal leaves it where it stood, so that whoever reads knows at which place the field was bad.

ghost use Rattle.std.specs.Prelude.{◌≡◌, ◌≤◌, ◌<◌, ◌++◌, ◌↔◌, length, Err, IfOk, ℕ, ℤ};
ghost use Rattle.std.specs.Int.{w8, w16, w32, w64};
ghost use Rattle.base.specs.Grammar.{IsBytes};
ghost use Rattle.wire_bytes.specs.Position.{Position, left, further};

use crate::WireRefusal;
use crate::varint::{number_of, unzigzag};
use std::marker::Model;

/// Reads bytes from left to right. A call that refuses leaves the place as it was.
#[derive(Drop)]
pub struct Cursor<'a> {
    bytes: &'a [u8],
    place: usize,
}

impl<'a> Model for Cursor<'a> {
    ghost Value = { Position };

    ghost view = { λ c. record { bytes = c.bytes.now; place = c.place } };

    ghost invariant = { λ c. (c.place ≤ length c.bytes.now) × IsBytes c.bytes.now };
}

impl<'a> Cursor<'a> {
    ghost use Rattle.base.specs.Reading.{Steps};
    ghost use Rattle.wire_bytes.specs.Fields.{bytes_at, number_at, uvarint_at, varint_at};
    ghost use Rattle.wire_bytes.specs.FieldTexts.{IsFixed, IsUvarint, IsVarint, EndsInside, PassesLimit, Found, Only};

    /// A cursor before the first byte.
    pub fn new(bytes: &'a [u8]) -> Self
        ensures { result ≡ record { bytes = bytes.now; place = 0 } }
    {
        Cursor { bytes, place: 0 }
    }

    /// A cursor after so many bytes.
    pub fn at(bytes: &'a [u8], place: usize) -> Self
        requires { place ≤ length bytes.now }
        ensures { result ≡ record { bytes = bytes.now; place = place } }
    {
        Cursor { bytes, place }
    }

    /// How many bytes have been read.
    pub fn place(&self) -> usize
        ensures place { result ≡ self.now.place }
        ensures within { self.now.place ≤ length self.now.bytes }
    {
        self.place
    }

    /// Lends the bytes that are still to be read.
    pub fn rest(&self) -> &'a [u8]
        ensures { result.now ≡ left self.now }
    {
        &self.bytes[self.place..]
    }

    /// Lends the next bytes.
    pub fn take_bytes(&mut self, count: usize) -> Result<&'a [u8], WireRefusal>
        ensures found { IfOk result (λ bytes. (length bytes.now ≡ count)
            × (left self.old ≡ bytes.now ++ left self.new)) }
        ensures short { (result ≡ Err WireRefusal.Short) ↔ (length (left self.old) < count) }
        ensures exact { Steps (λ bytes. bytes.now) self.old self.new result
            (bytes_at count self.old) }
    {
        self.read_bytes(count)
    }

    /// Reads a byte.
    pub fn take_u8(&mut self) -> Result<u8, WireRefusal>
        ensures found { Found (IsFixed w8) self.old self.new result }
        ensures only { Only (IsFixed w8) self.old self.new result }
        ensures short { (result ≡ Err WireRefusal.Short) ↔ (length (left self.old) < 1) }
        ensures exact { Steps (λ n. n) self.old self.new result (number_at w8 self.old) }
    {
        self.read_u8()
    }

    /// Reads two bytes, the highest first.
    pub fn take_u16(&mut self) -> Result<u16, WireRefusal>
        ensures found { Found (IsFixed w16) self.old self.new result }
        ensures only { Only (IsFixed w16) self.old self.new result }
        ensures short { (result ≡ Err WireRefusal.Short) ↔ (length (left self.old) < 2) }
        ensures exact { Steps (λ n. n) self.old self.new result (number_at w16 self.old) }
    {
        self.read_u16()
    }

    /// Reads four bytes, the highest first.
    pub fn take_u32(&mut self) -> Result<u32, WireRefusal>
        ensures found { Found (IsFixed w32) self.old self.new result }
        ensures only { Only (IsFixed w32) self.old self.new result }
        ensures short { (result ≡ Err WireRefusal.Short) ↔ (length (left self.old) < 4) }
        ensures exact { Steps (λ n. n) self.old self.new result (number_at w32 self.old) }
    {
        self.read_u32()
    }

    /// Reads eight bytes, the highest first.
    pub fn take_u64(&mut self) -> Result<u64, WireRefusal>
        ensures found { Found (IsFixed w64) self.old self.new result }
        ensures only { Only (IsFixed w64) self.old self.new result }
        ensures short { (result ≡ Err WireRefusal.Short) ↔ (length (left self.old) < 8) }
        ensures exact { Steps (λ n. n) self.old self.new result (number_at w64 self.old) }
    {
        self.read_u64()
    }

    /// Reads a number in base 128.
    #[inline(always)]
    pub fn take_uvarint(&mut self) -> Result<u64, WireRefusal>
        ensures found { Found IsUvarint self.old self.new result }
        ensures only { Only IsUvarint self.old self.new result }
        ensures short { (result ≡ Err WireRefusal.Short) ↔ EndsInside (left self.old) }
        ensures overlong { (result ≡ Err WireRefusal.Overlong) ↔ PassesLimit (left self.old) }
        ensures exact { Steps (λ n. n) self.old self.new result (uvarint_at self.old) }
    {
        self.read_uvarint()
    }

    /// Reads a signed number by its place in the order 0, -1, 1, -2, 2.
    #[inline(always)]
    pub fn take_varint(&mut self) -> Result<i64, WireRefusal>
        ensures found { Found IsVarint self.old self.new result }
        ensures only { Only IsVarint self.old self.new result }
        ensures short { (result ≡ Err WireRefusal.Short) ↔ EndsInside (left self.old) }
        ensures overlong { (result ≡ Err WireRefusal.Overlong) ↔ PassesLimit (left self.old) }
        ensures exact { Steps (λ n. n) self.old self.new result (varint_at self.old) }
    {
        self.read_varint()
    }

    // What each call above does; the laws on its fields are its caller's.

    #[tactic(auto, unfolding(crate::specs::Fields::bytes_at))]
    fn read_bytes(&mut self, count: usize) -> Result<&'a [u8], WireRefusal>
        ensures exact { Steps (λ bytes. bytes.now) self.old self.new result
            (bytes_at count self.old) }
        ensures bytes { IsBytes (left self.old) }
    {
        let left = &self.bytes[self.place..];
        if left.len() < count {
            return Err(WireRefusal::Short);
        }
        self.place += count;
        Ok(&left[..count])
    }

    #[tactic(auto, unfolding(crate::specs::Fields::bytes_at, crate::specs::Fields::number_at))]
    fn read_u8(&mut self) -> Result<u8, WireRefusal>
        ensures exact { Steps (λ n. n) self.old self.new result (number_at w8 self.old) }
        ensures bytes { IsBytes (left self.old) }
    {
        let front = self.read_bytes(1)?;
        Ok(front[0])
    }

    #[tactic(auto, unfolding(crate::specs::Fields::bytes_at, crate::specs::Fields::number_at))]
    fn read_u16(&mut self) -> Result<u16, WireRefusal>
        ensures exact { Steps (λ n. n) self.old self.new result (number_at w16 self.old) }
        ensures bytes { IsBytes (left self.old) }
    {
        let front = self.read_bytes(2)?;
        Ok(u16::from_be_bytes([front[0], front[1]]))
    }

    #[tactic(auto, unfolding(crate::specs::Fields::bytes_at, crate::specs::Fields::number_at))]
    fn read_u32(&mut self) -> Result<u32, WireRefusal>
        ensures exact { Steps (λ n. n) self.old self.new result (number_at w32 self.old) }
        ensures bytes { IsBytes (left self.old) }
    {
        let front = self.read_bytes(4)?;
        Ok(u32::from_be_bytes([front[0], front[1], front[2], front[3]]))
    }

    #[tactic(auto, unfolding(crate::specs::Fields::bytes_at, crate::specs::Fields::number_at))]
    fn read_u64(&mut self) -> Result<u64, WireRefusal>
        ensures exact { Steps (λ n. n) self.old self.new result (number_at w64 self.old) }
        ensures bytes { IsBytes (left self.old) }
    {
        let front = self.read_bytes(8)?;
        Ok(u64::from_be_bytes([
            front[0], front[1], front[2], front[3], front[4], front[5], front[6], front[7],
        ]))
    }

    #[inline(always)]
    #[tactic(auto, unfolding(crate::specs::Fields::uvarint_at))]
    fn read_uvarint(&mut self) -> Result<u64, WireRefusal>
        ensures exact { Steps (λ n. n) self.old self.new result (uvarint_at self.old) }
        ensures bytes { IsBytes (left self.old) }
    {
        let (n, taken) = number_of(&self.bytes[self.place..])?;
        self.place += taken;
        Ok(n)
    }

    #[inline(always)]
    #[tactic(auto, unfolding(crate::specs::Fields::varint_at))]
    fn read_varint(&mut self) -> Result<i64, WireRefusal>
        ensures exact { Steps (λ n. n) self.old self.new result (varint_at self.old) }
        ensures bytes { IsBytes (left self.old) }
    {
        let n = self.read_uvarint()?;
        Ok(unzigzag(n))
    }
}

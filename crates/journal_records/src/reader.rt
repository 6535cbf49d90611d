//! Reads a record from left to right. A number, a ULID or counted bytes that end too soon are refused where they begin.

ghost use Rattle.std.specs.Prelude.{◌≡◌, ◌≤◌, length, take, nat_le, IfOk};
ghost use Rattle.std.specs.Int.{w8, w32, w64};
ghost use Rattle.base.specs.Reading.{Steps};
ghost use Rattle.wire_bytes.specs.Position.{left, start};
ghost use Rattle.wire_bytes.specs.Fields.{bytes_at, number_at};
ghost use Rattle.journal_records.specs.FieldReading.{MovesOn, field, byte_at, small_at, large_at};

use crate::RecordCause;
use std::marker::Model;
use wire_bytes::{Blob, Cursor};

/// Reads a record from left to right, and gives parts of it that share its bytes.
#[derive(Drop)]
pub(crate) struct Reader<'a> {
    whole: &'a Blob,
    cursor: Cursor<'a>,
}

impl<'a> Model for Reader<'a> {
    ghost use Rattle.std.specs.Prelude.{◌≡◌};
    ghost use Rattle.wire_bytes.specs.Position.{Position};

    ghost Value = { Position };

    ghost view = { λ r. r.cursor };

    ghost invariant = { λ r. r.cursor.bytes ≡ r.whole.now };
}

impl<'a> Reader<'a> {
    /// A reader before the first byte.
    pub(crate) fn new(whole: &'a Blob) -> Self
        ensures { result ≡ start whole.now }
    {
        let cursor = Cursor::new(whole.bytes());
        Reader { whole, cursor }
    }

    /// How many bytes have been read.
    pub(crate) fn place(&self) -> u64
        ensures place { result ≡ self.now.place }
        ensures within { self.now.place ≤ length self.now.bytes }
    {
        self.cursor.place() as u64
    }

    /// Lends the bytes that are still to be read.
    pub(crate) fn rest(&self) -> &'a [u8]
        ensures { result.now ≡ left self.now }
    {
        self.cursor.rest()
    }

    /// Whether all bytes have been read.
    pub(crate) fn is_at_end(&self) -> bool
        ensures { result ≡ nat_le (length self.now.bytes) self.now.place }
    {
        self.whole.bytes().len() <= self.cursor.place()
    }

    /// Lends the bytes that have been read.
    pub(crate) fn passed(&self) -> &'a [u8]
        ensures { result.now ≡ take self.now.place self.now.bytes }
    {
        let place = self.cursor.place();
        &self.whole.bytes()[..place]
    }

    /// Reads a byte.
    #[inline(always)]
    pub(crate) fn next_u8(&mut self) -> Result<u8, RecordCause>
        ensures { Steps (λ n. n) self.old self.new result (byte_at self.old) }
    {
        let place = self.cursor.place() as u64;
        match self.cursor.take_u8() {
            Ok(n) => Ok(n),
            Err(_) => Err(RecordCause::Short(place)),
        }
    }

    /// Reads a number of four bytes.
    #[inline(always)]
    pub(crate) fn next_u32(&mut self) -> Result<u32, RecordCause>
        ensures { Steps (λ n. n) self.old self.new result (small_at self.old) }
    {
        let place = self.cursor.place() as u64;
        match self.cursor.take_u32() {
            Ok(n) => Ok(n),
            Err(_) => Err(RecordCause::Short(place)),
        }
    }

    /// Reads a number of eight bytes.
    #[inline(always)]
    pub(crate) fn next_u64(&mut self) -> Result<u64, RecordCause>
        ensures { Steps (λ n. n) self.old self.new result (large_at self.old) }
    {
        let place = self.cursor.place() as u64;
        match self.cursor.take_u64() {
            Ok(n) => Ok(n),
            Err(_) => Err(RecordCause::Short(place)),
        }
    }

    /// So many bytes, which are lent.
    #[inline(always)]
    pub(crate) fn next_bytes(&mut self, count: u32) -> Result<&'a [u8], RecordCause>
        ensures exact { Steps (λ bytes. bytes.now) self.old self.new result
            (field (bytes_at count) self.old) }
        ensures count { IfOk result (λ bytes. length bytes.now ≡ count) }
    {
        let place = self.cursor.place() as u64;
        match self.cursor.take_bytes(count as usize) {
            Ok(bytes) => Ok(bytes),
            Err(_) => Err(RecordCause::Short(place)),
        }
    }

    /// So many bytes, which are shared.
    #[inline(always)]
    pub(crate) fn next_part(&mut self, count: u32) -> Result<Blob, RecordCause>
        ensures { MovesOn RecordCause.NoMemory (λ blob. blob) self.new result
            (field (bytes_at count) self.old) }
    {
        let place = self.cursor.place() as u64;
        match self.cursor.take_bytes(count as usize) {
            Ok(_) => Ok(self.whole.part(place, u64::from(count))?),
            Err(_) => Err(RecordCause::Short(place)),
        }
    }
}

//! The fields of an index, as `wire_bytes` reads them, but each refusal with the place at which its field begins: that
//! is what a caller is told of a damaged index.

ghost use Rattle.std.specs.Prelude.{◌≡◌, ◌-◌, ◌*◌, ◌≤◌, ◌<◌, Ok, Err, MatchResult, length, true, false};
ghost use Rattle.std.specs.Str.{is_utf8};
ghost use Rattle.std.specs.Int.{w8, w32, w64};
ghost use Rattle.base.specs.Reading.{Steps};
ghost use Rattle.wire_bytes.specs.Fields.{bytes_at, number_at, uvarint_at, varint_at};
ghost use Rattle.wire_bytes.specs.Position.{left};
ghost use Rattle.index_parts.specs.Placed.{refused_at, field, text_at};
ghost use Rattle.index_parts.specs.Moves.{MovesOn};

use crate::PartRefusal;
use wire_bytes::{Cursor, WireRefusal};

/// A refusal of the field that begins at a place.
#[inline(always)]
fn refused_at(place: u64, refusal: WireRefusal) -> PartRefusal
    ensures { result ≡ refused_at place refusal }
{
    match refusal {
        WireRefusal::Short => PartRefusal::Short(place),
        WireRefusal::Overlong => PartRefusal::Overlong(place),
    }
}

#[inline(always)]
pub(crate) fn next_u8(cursor: &mut Cursor<'_>) -> Result<u8, PartRefusal>
    ensures { Steps (λ n. n) cursor.old cursor.new result (field (number_at w8) cursor.old) }
{
    let place = cursor.place() as u64;
    match cursor.take_u8() {
        Ok(n) => Ok(n),
        Err(refusal) => Err(refused_at(place, refusal)),
    }
}

#[inline(always)]
pub(crate) fn next_u32(cursor: &mut Cursor<'_>) -> Result<u32, PartRefusal>
    ensures { Steps (λ n. n) cursor.old cursor.new result (field (number_at w32) cursor.old) }
{
    let place = cursor.place() as u64;
    match cursor.take_u32() {
        Ok(n) => Ok(n),
        Err(refusal) => Err(refused_at(place, refusal)),
    }
}

#[inline(always)]
pub(crate) fn next_u64(cursor: &mut Cursor<'_>) -> Result<u64, PartRefusal>
    ensures { Steps (λ n. n) cursor.old cursor.new result (field (number_at w64) cursor.old) }
{
    let place = cursor.place() as u64;
    match cursor.take_u64() {
        Ok(n) => Ok(n),
        Err(refusal) => Err(refused_at(place, refusal)),
    }
}

#[inline(always)]
pub(crate) fn next_uvarint(cursor: &mut Cursor<'_>) -> Result<u64, PartRefusal>
    ensures { Steps (λ n. n) cursor.old cursor.new result (field uvarint_at cursor.old) }
{
    let place = cursor.place() as u64;
    match cursor.take_uvarint() {
        Ok(n) => Ok(n),
        Err(refusal) => Err(refused_at(place, refusal)),
    }
}

#[inline(always)]
pub(crate) fn next_varint(cursor: &mut Cursor<'_>) -> Result<i64, PartRefusal>
    ensures { Steps (λ n. n) cursor.old cursor.new result (field varint_at cursor.old) }
{
    let place = cursor.place() as u64;
    match cursor.take_varint() {
        Ok(n) => Ok(n),
        Err(refusal) => Err(refused_at(place, refusal)),
    }
}

#[inline(always)]
fn next_bytes<'a>(cursor: &mut Cursor<'a>, count: u64) -> Result<&'a [u8], PartRefusal>
    ensures { Steps (λ bytes. bytes.now) cursor.old cursor.new result
        (field (bytes_at count) cursor.old) }
{
    let place = cursor.place() as u64;
    match cursor.take_bytes(count as usize) {
        Ok(bytes) => Ok(bytes),
        Err(refusal) => Err(refused_at(place, refusal)),
    }
}

/// The bytes behind their length.
#[inline(always)]
#[tactic(auto, unfolding(crate::specs::Placed::text_at))]
pub(crate) fn next_text<'a>(cursor: &mut Cursor<'a>) -> Result<&'a [u8], PartRefusal>
    ensures { MovesOn (λ bytes. bytes.now) cursor.new result (text_at cursor.old) }
{
    let size = next_uvarint(cursor)?;
    next_bytes(cursor, size)
}

/// The bytes that end at a place, as a text.
#[inline(always)]
#[tactic(auto, using(crate::proofs::Texts::utf8_tests))]
pub(crate) fn text_of(bytes: &[u8], end: usize) -> Result<&str, PartRefusal>
    requires { length bytes.now ≤ end }
    ensures { MatchResult result (λ text. (is_utf8 bytes.now ≡ true) × (text.now ≡ bytes.now))
        (λ e. (is_utf8 bytes.now ≡ false) × (e ≡ PartRefusal.NotText (end - length bytes.now))) }
{
    match str::from_utf8(bytes) {
        Ok(text) => Ok(text),
        Err(_) => Err(PartRefusal::NotText((end - bytes.len()) as u64)),
    }
}

/// How many of `count` members to make room for at once: no more than the bytes that are left hold, where each takes `size`.
#[inline(always)]
pub(crate) fn room_for(count: u32, cursor: &Cursor<'_>, size: usize) -> usize
    requires { 0 < size }
    ensures { (result ≤ count) × (size * result ≤ length (left cursor.now)) }
{
    (count as usize).min(cursor.rest().len() / size)
}

//! What all sections of an index have in common: a length, the content, and a sum, which is tested before any byte of
//! the content is believed.

ghost use Rattle.std.specs.Prelude.{◌≡◌, ◌≤◌, length};
ghost use Rattle.base.specs.Reading.{Answers};
ghost use Rattle.index_parts.specs.Placed.{at_place};
ghost use Rattle.index_parts.specs.Framing.{summed_at, section_at, entry_at};

use crate::PartRefusal;
use crate::fields::{next_u32, next_uvarint};
use wire_bytes::{Cursor, crc_of};

/// Tests the sum behind `size` bytes, of a section that begins at `at`, and stands before those bytes.
#[inline(always)]
#[tactic(auto, unfolding(crate::specs::Framing::summed_at))]
pub(crate) fn summed_content(
    index: &[u8],
    place: usize,
    at: u64,
    size: u64,
) -> Result<Cursor<'_>, PartRefusal>
    requires { place ≤ length index.now }
    ensures { Answers (λ content. content) result (summed_at at size (at_place index.now place)) }
{
    let mut cursor = Cursor::at(index, place);
    let Ok(content) = cursor.take_bytes(size as usize) else {
        return Err(PartRefusal::Short(at));
    };
    let end = cursor.place();
    let Ok(kept) = cursor.take_u32() else {
        return Err(PartRefusal::Short(at));
    };
    let computed = crc_of(content);
    if kept != computed {
        return Err(PartRefusal::BadSum { kept, computed });
    }
    Ok(Cursor::at(&index[..end], place))
}

/// Stands before the content of the section at a place.
#[tactic(auto, unfolding(crate::specs::Framing::framed_at))]
pub(crate) fn section_of(index: &[u8], at: u64) -> Result<Cursor<'_>, PartRefusal>
    ensures { Answers (λ content. content) result (section_at index.now at) }
{
    if at > index.len() as u64 {
        return Err(PartRefusal::Short(at));
    }
    let mut cursor = Cursor::at(index, at as usize);
    let size = next_u32(&mut cursor)?;
    summed_content(index, cursor.place(), at, u64::from(size))
}

/// Stands before the content of the entry at a place, whose length is in base 128, as that of a series.
#[inline(always)]
#[tactic(auto, unfolding(crate::specs::Framing::framed_at))]
pub(crate) fn entry_of(index: &[u8], at: u64) -> Result<Cursor<'_>, PartRefusal>
    ensures { Answers (λ content. content) result (entry_at index.now at) }
{
    if at > index.len() as u64 {
        return Err(PartRefusal::Short(at));
    }
    let mut cursor = Cursor::at(index, at as usize);
    let size = next_uvarint(&mut cursor)?;
    summed_content(index, cursor.place(), at, size)
}

//! One loop for all lists of an index: the symbols, the numbers of a postings list, the rows of the postings table. A
//! member is told from the one before it, and no more room is made than the bytes that are left can fill.

ghost use Rattle.std.specs.Prelude.{◌≡◌, ◌<◌, List, map};
ghost use Rattle.base.specs.Reading.{Gives};
ghost use Rattle.base.specs.Grammar.{IsBytes};
ghost use Rattle.index_parts.specs.ListReading.{turns_at, list_at};

use crate::PartRefusal;
use crate::fields::{next_u32, room_for};
use crate::sections::section_of;
use std::alloc::Global;
use wire_bytes::Cursor;

/// What may stand in a list: it is told from the member before it, and may lend the index's bytes.
pub(crate) trait Member<'a>: Copy {
    ghost use Rattle.std.specs.Prelude.{◌*◌, Option, option_map, Result};
    ghost use Rattle.wire_bytes.specs.Position.{Position};
    ghost use Rattle.index_parts.specs.declared.refusal.PartRefusal.{PartRefusal};
    ghost use Rattle.index_parts.specs.Moves.{MovesOnTo};

    /// A member that owns its texts.
    type Owned;

    /// What a member says.
    ghost said: { Self → Self.Owned };

    /// What reading the member behind another gives, or its refusal.
    ghost reads: { Option Self.Owned × Position
        → Result (Self.Owned × (Option Self.Owned × Position)) PartRefusal };

    /// The next member.
    fn next(cursor: &mut Cursor<'a>, before: Option<Self>) -> Result<Self, PartRefusal>
        ensures { MovesOnTo said cursor.new result
            (reads (option_map said before, cursor.old)) };
}

/// Reads `count` members, for which room is made as if each took `size` bytes.
#[inline(never)]
pub(crate) fn members_of<'a, M: Member<'a>>(
    alloc: Global,
    count: u32,
    mut cursor: Cursor<'a>,
    size: usize,
) -> Result<Vec<M>, PartRefusal>
    requires { 0 < size }
    ensures { Gives PartRefusal.NoMemory (λ members. map M.said members.items) result
        (turns_at M.reads count cursor.entry) }
{
    let mut members = Vec::with_capacity(alloc, room_for(count, &cursor, size))?;
    let mut before = None;
    for _ in 0..count {
        let member = M::next(&mut cursor, before)?;
        members.push(member)?;
        before = Some(member);
    }
    Ok(members)
}

/// Reads the list at a place. Bytes that follow the last member are passed over.
#[tactic(auto, unfolding(crate::specs::ListReading::list_at))]
pub(crate) fn list_of<'a, M: Member<'a>>(
    alloc: Global,
    index: &'a [u8],
    at: u64,
    size: usize,
) -> Result<Vec<M>, PartRefusal>
    requires { 0 < size }
    ensures exact { Gives PartRefusal.NoMemory (λ members. map M.said members.items) result
        (list_at M.reads index.now at) }
    ensures bytes { IsBytes index.now }
{
    let mut content = section_of(index, at)?;
    let count = next_u32(&mut content)?;
    members_of(alloc, count, content, size)
}

//! Reads the entries of a record. A count that its bytes cannot hold makes no room: room is made for as many of the least entries
//! as the bytes that are left can be.

ghost use Rattle.std.specs.Prelude.{◌≡◌, ◌+◌, ◌*◌, ◌<◌, ◌≤◌, length, [], IfOk};
ghost use Rattle.base.specs.Members.{members_at};
ghost use Rattle.wire_bytes.specs.Position.{left};
ghost use Rattle.world_core.specs.Journals.{IsNumbered};
ghost use Rattle.journal_records.specs.FieldReading.{MovesOn};
ghost use Rattle.journal_records.specs.Limits.{least_entry};
ghost use Rattle.journal_records.specs.RecordReading.{entries_at, turn_at};

use crate::RecordCause;
use crate::operations::next_op;
use crate::reader::Reader;
use crate::replies::next_reply;
use base::NoMemory;
use moment_core::Moment;
use std::alloc::Global;
use world_core::{Entry, EntryList};

/// How many bytes the least entry has: the setting of a clock.
const LEAST_ENTRY: usize = 22;

/// How many of `count` entries to make room for at once: no more than the bytes that are left can hold.
fn room_for(count: u64, reader: &Reader<'_>) -> usize
    ensures { least_entry * result ≤ length (left reader.now) }
{
    let most = reader.rest().len() / LEAST_ENTRY;
    if count < most as u64 {
        count as usize
    } else {
        most
    }
}

/// No entries, with room for so many.
fn with_room(alloc: Global, count: usize) -> Result<EntryList, NoMemory>
    ensures { IfOk result (λ entries. entries ≡ []) }
{
    Ok(EntryList::from_vec(Vec::with_capacity(alloc, count)?))
}

/// The entry that is next, whose number is due.
#[tactic(auto, unfolding(crate::specs::RecordReading::entry_at, crate::specs::RecordReading::turn_at))]
fn next_entry(alloc: Global, seq: u64, reader: &mut Reader<'_>) -> Result<Entry, RecordCause>
    ensures { MovesOn RecordCause.NoMemory (λ entry. entry) (reader.new, seq + 1) result
        (turn_at (reader.old, seq)) }
{
    let seat = reader.next_u32()?;
    let ms = reader.next_u64()?;
    let op = next_op(alloc, reader)?;
    let reply = next_reply(alloc, &op, reader)?;
    Ok(Entry {
        seq,
        seat,
        moment: Moment { ms },
        op,
        reply,
    })
}

/// So many entries, numbered from 1, with room made for those that can be there.
fn entries_of(alloc: Global, count: u64, reader: &mut Reader<'_>) -> Result<EntryList, RecordCause>
    ensures { MovesOn RecordCause.NoMemory (λ entries. entries) (reader.new, count + 1) result
        (members_at turn_at count (reader.old, 1)) }
{
    let mut entries = with_room(alloc, room_for(count, reader))?;
    for place in 0..count {
        let entry = next_entry(alloc, place + 1, reader)?;
        entries.push(entry)?;
    }
    Ok(entries)
}

/// So many entries, numbered from 1.
#[tactic(auto, unfolding(crate::specs::RecordReading::entries_at))]
pub(crate) fn next_entries(
    alloc: Global,
    count: u64,
    reader: &mut Reader<'_>,
) -> Result<EntryList, RecordCause>
    ensures exact { MovesOn RecordCause.NoMemory (λ entries. entries) reader.new result
        (entries_at count reader.old) }
    ensures numbered { IfOk result IsNumbered }
{
    let entries = entries_of(alloc, count, reader)?;
    Ok(entries)
}

//! Reads operations: a byte for the kind, and behind it what the operation is on.

ghost use Rattle.journal_records.specs.FieldReading.{MovesOn};
ghost use Rattle.journal_records.specs.RecordReading.{block_page_at, clock_at, delete_at, get_at, op_at, op_by, put_at, range_at, root_page_at};

use crate::RecordCause;
use crate::fields::{next_blob, next_key, next_text, next_ulid};
use crate::kinds::{BLOCK_PAGE, CLOCK, DELETE, GET, GET_RANGE, PUT, ROOT_PAGE};
use crate::reader::Reader;
use moment_core::Moment;
use std::alloc::Global;
use world_core::Op;

/// The operation that is next.
#[tactic(auto, unfolding(crate::specs::RecordReading::op_at))]
pub(crate) fn next_op(alloc: Global, reader: &mut Reader<'_>) -> Result<Op, RecordCause>
    ensures { MovesOn RecordCause.NoMemory (λ op. op) reader.new result (op_at reader.old) }
{
    let place = reader.place();
    let kind = reader.next_u8()?;
    op_by(alloc, place, kind, reader)
}

/// The operation of a kind, whose byte stands at a place.
fn op_by(alloc: Global, place: u64, kind: u8, reader: &mut Reader<'_>) -> Result<Op, RecordCause>
    ensures { MovesOn RecordCause.NoMemory (λ op. op) reader.new result
        (op_by place kind reader.old) }
{
    match kind {
        CLOCK => clock(reader),
        PUT => put(reader),
        GET => get(reader),
        GET_RANGE => range(reader),
        DELETE => delete(reader),
        ROOT_PAGE => root_page(alloc, reader),
        BLOCK_PAGE => block_page(alloc, reader),
        _ => Err(RecordCause::BadKind(place)),
    }
}

#[tactic(auto, unfolding(crate::specs::RecordReading::clock_at))]
fn clock(reader: &mut Reader<'_>) -> Result<Op, RecordCause>
    ensures { MovesOn RecordCause.NoMemory (λ op. op) reader.new result (clock_at reader.old) }
{
    let ms = reader.next_u64()?;
    Ok(Op::Clock(Moment { ms }))
}

#[tactic(auto, unfolding(crate::specs::RecordReading::put_at))]
fn put(reader: &mut Reader<'_>) -> Result<Op, RecordCause>
    ensures { MovesOn RecordCause.NoMemory (λ op. op) reader.new result (put_at reader.old) }
{
    let key = next_key(reader)?;
    Ok(Op::Put(key, next_blob(reader)?))
}

#[tactic(auto, unfolding(crate::specs::RecordReading::get_at))]
fn get(reader: &mut Reader<'_>) -> Result<Op, RecordCause>
    ensures { MovesOn RecordCause.NoMemory (λ op. op) reader.new result (get_at reader.old) }
{
    Ok(Op::Get(next_key(reader)?))
}

#[tactic(auto, unfolding(crate::specs::RecordReading::range_at))]
fn range(reader: &mut Reader<'_>) -> Result<Op, RecordCause>
    ensures { MovesOn RecordCause.NoMemory (λ op. op) reader.new result (range_at reader.old) }
{
    let key = next_key(reader)?;
    let from = reader.next_u64()?;
    let len = reader.next_u64()?;
    Ok(Op::GetRange(key, from, len))
}

#[tactic(auto, unfolding(crate::specs::RecordReading::delete_at))]
fn delete(reader: &mut Reader<'_>) -> Result<Op, RecordCause>
    ensures { MovesOn RecordCause.NoMemory (λ op. op) reader.new result (delete_at reader.old) }
{
    Ok(Op::Delete(next_key(reader)?))
}

#[tactic(auto, unfolding(crate::specs::RecordReading::root_page_at))]
fn root_page(alloc: Global, reader: &mut Reader<'_>) -> Result<Op, RecordCause>
    ensures { MovesOn RecordCause.NoMemory (λ op. op) reader.new result
        (root_page_at reader.old) }
{
    let after = next_text(alloc, reader)?;
    Ok(Op::RootPage(after, reader.next_u32()?))
}

#[tactic(auto, unfolding(crate::specs::RecordReading::block_page_at))]
fn block_page(alloc: Global, reader: &mut Reader<'_>) -> Result<Op, RecordCause>
    ensures { MovesOn RecordCause.NoMemory (λ op. op) reader.new result
        (block_page_at reader.old) }
{
    let ulid = next_ulid(reader)?;
    let after = next_text(alloc, reader)?;
    Ok(Op::BlockPage(ulid, after, reader.next_u32()?))
}

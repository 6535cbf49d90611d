//! Reads replies. A reply of a kind that its operation cannot have is refused at the byte of the kind.

ghost use Rattle.std.specs.Prelude.{◌≡◌};
ghost use Rattle.journal_records.specs.FieldReading.{MovesOn};
ghost use Rattle.journal_records.specs.RecordReading.{failed_at, found_at, listed_at, may_have, may_land, reply_at, reply_by};

use crate::RecordCause;
use crate::fields::{next_blob, next_names};
use crate::kinds::{ABSENT, CLOCKED, DELETED, FAILED, FOUND, NAMES, STORED};
use crate::reader::Reader;
use std::alloc::Global;
use world_core::{Op, Reply};

/// The reply that is next, which is one that the operation may have.
#[tactic(auto, unfolding(crate::specs::RecordReading::reply_at))]
pub(crate) fn next_reply(
    alloc: Global,
    op: &Op,
    reader: &mut Reader<'_>,
) -> Result<Reply, RecordCause>
    ensures { MovesOn RecordCause.NoMemory (λ reply. reply) reader.new result
        (reply_at op.now reader.old) }
{
    let place = reader.place();
    let kind = reader.next_u8()?;
    if !may_have(op, kind) {
        return Err(RecordCause::BadKind(place));
    }
    reply_by(alloc, may_land(op), kind, reader)
}

/// Whether an operation may have a reply of a kind.
fn may_have(op: &Op, kind: u8) -> bool
    ensures { result ≡ may_have op.now kind }
{
    match op {
        Op::Clock(_) => kind == CLOCKED,
        Op::Put(_, _) => kind == STORED || kind == FAILED,
        Op::Get(_) | Op::GetRange(_, _, _) => kind == FOUND || kind == ABSENT || kind == FAILED,
        Op::Delete(_) => kind == DELETED || kind == FAILED,
        Op::RootPage(_, _) | Op::BlockPage(_, _, _) => kind == NAMES || kind == FAILED,
    }
}

/// Whether an operation that failed may have taken effect all the same.
fn may_land(op: &Op) -> bool
    ensures { result ≡ may_land op.now }
{
    match op {
        Op::Put(_, _) | Op::Delete(_) => true,
        _ => false,
    }
}

/// The reply of a kind that the operation may have.
fn reply_by(
    alloc: Global,
    lands: bool,
    kind: u8,
    reader: &mut Reader<'_>,
) -> Result<Reply, RecordCause>
    ensures { MovesOn RecordCause.NoMemory (λ reply. reply) reader.new result
        (reply_by lands kind reader.old) }
{
    match kind {
        CLOCKED => Ok(Reply::Clocked),
        STORED => Ok(Reply::Stored),
        FOUND => found(reader),
        ABSENT => Ok(Reply::Absent),
        DELETED => Ok(Reply::Deleted),
        NAMES => listed(alloc, reader),
        _ => failed(lands, reader),
    }
}

#[tactic(auto, unfolding(crate::specs::RecordReading::found_at))]
fn found(reader: &mut Reader<'_>) -> Result<Reply, RecordCause>
    ensures { MovesOn RecordCause.NoMemory (λ reply. reply) reader.new result
        (found_at reader.old) }
{
    Ok(Reply::Found(next_blob(reader)?))
}

#[tactic(auto, unfolding(crate::specs::RecordReading::listed_at))]
fn listed(alloc: Global, reader: &mut Reader<'_>) -> Result<Reply, RecordCause>
    ensures { MovesOn RecordCause.NoMemory (λ reply. reply) reader.new result
        (listed_at reader.old) }
{
    Ok(Reply::Names(next_names(alloc, reader)?))
}

#[tactic(auto, unfolding(crate::specs::RecordReading::failed_at))]
fn failed(lands: bool, reader: &mut Reader<'_>) -> Result<Reply, RecordCause>
    ensures { MovesOn RecordCause.NoMemory (λ reply. reply) reader.new result
        (failed_at lands reader.old) }
{
    let place = reader.place();
    let flag = reader.next_u8()?;
    if flag == 0 || flag == 1 && lands {
        Ok(Reply::Failed(flag == 1))
    } else {
        Err(RecordCause::BadKind(place))
    }
}

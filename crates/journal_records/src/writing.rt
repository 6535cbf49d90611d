//! Writes a record in one piece, in room for just its size. A record that would be too large is refused before anything is written.

ghost use Rattle.std.specs.Prelude.{◌≡◌, ◌↔◌, ◌<◌, ◌≤◌, ◌^◌, ◌++◌, length, IfOk, IfSome, OnOk, OnErr, Ok, Err, None};
ghost use Rattle.std.specs.Int.{w32, to_be_bytes};
ghost use Rattle.std.specs.List.{All, AllByRecursion};
ghost use Rattle.wire_bytes.specs.Crc.{crc};
ghost use Rattle.journal_records.specs.Limits.{most_bytes};
ghost use Rattle.journal_records.specs.RecordReading.{record_of};
ghost use Rattle.journal_records.specs.RecordText.{IsRecord};
ghost use Rattle.journal_records.specs.RecordWritten.{IsTyped, body_text, record_text};
ghost use Rattle.journal_records.specs.Writable.{HasLawfulKey, IsWritable};

use crate::entries_written::{put_counted, put_entries};
use crate::kinds::MAGIC;
use crate::sizes::record_size;
use crate::{MOST_BYTES, RecordRefusal};
use base::NoMemory;
use std::alloc::Global;
use wire_bytes::{crc_of, put_bytes, put_u32, put_u64};
use world_core::{Entry, Journal};

/// Appends the record of a run.
pub fn write_record(
    script: &[u8],
    journal: &Journal,
    out: &mut Vec<u8>,
) -> Result<(), RecordRefusal>
    requires { IsWritable journal.now }
    ensures ok { OnOk result
        (out.new.items ≡ out.old.items ++ record_text script.now journal.now) }
    ensures err { OnErr result (out.new.items ≡ out.old.items) }
    ensures too_large { (result ≡ Err RecordRefusal.TooLarge)
        ↔ (most_bytes < length (record_text script.now journal.now)) }

    // What is written is the record, and is read as it.
    ensures lawful { OnOk result (IsRecord (record_text script.now journal.now)
        (record { script = script.now; journal = journal.now })) }
    ensures again { OnOk result (record_of (record_text script.now journal.now)
        ≡ Ok (record { script = script.now; journal = journal.now })) }
{
    let entries = journal.entries();
    let Some(size) = size_of(script, entries) else {
        return Err(RecordRefusal::TooLarge);
    };
    let made = made_of(*out.allocator(), script, entries, size)?;
    append(out, made)?;
    Ok(())
}

/// How many bytes the record has, if it has no more than it may.
#[tactic(auto, using(crate::proofs::PartSizes::bounds))]
fn size_of(script: &[u8], entries: &[Entry]) -> Option<usize>
    ensures some { IfSome result
        (λ _. length (record_text script.now entries.now) ≤ most_bytes) }
    ensures none { (result ≡ None) ↔ (most_bytes < length (record_text script.now entries.now)) }
{
    let size = record_size(script, entries);
    if size > MOST_BYTES {
        None
    } else {
        Some(size as usize)
    }
}

/// Appends what was made. Where nothing stands before it, it is not copied.
fn append(out: &mut Vec<u8>, made: Vec<u8>) -> Result<(), NoMemory>
    ensures ok { OnOk result (out.new.items ≡ out.old.items ++ made.items) }
    ensures err { OnErr result (out.new.items ≡ out.old.items) }
{
    if out.is_empty() {
        *out = made;
        Ok(())
    } else {
        put_bytes(out, made.as_slice())
    }
}

/// The record, made in room for so many bytes.
fn made_of(
    alloc: Global,
    script: &[u8],
    entries: &[Entry],
    size: usize,
) -> Result<Vec<u8>, NoMemory>
    requires writable { IsWritable entries.now }
    requires few { length (record_text script.now entries.now) ≤ most_bytes }
    ensures text { IfOk result (λ made. made.items ≡ record_text script.now entries.now) }
    ensures lawful { OnOk result (IsRecord (record_text script.now entries.now)
        (record { script = script.now; journal = entries.now })) }
    ensures again { OnOk result (record_of (record_text script.now entries.now)
        ≡ Ok (record { script = script.now; journal = entries.now })) }
{
    let mut made = body_of(alloc, script, entries, size)?;
    put_sum(&mut made)?;
    Ok(made)
}

/// All of a record but its sum, made in room for so many bytes.
fn body_of(
    alloc: Global,
    script: &[u8],
    entries: &[Entry],
    size: usize,
) -> Result<Vec<u8>, NoMemory>
    requires { All (λ e. HasLawfulKey e.op) entries.now }
    ensures text { IfOk result (λ body. body.items ≡ body_text script.now entries.now) }
    ensures typed { OnOk result (AllByRecursion IsTyped entries.now) }
{
    let mut body = Vec::with_capacity(alloc, size)?;
    put_body(&mut body, script, entries)?;
    Ok(body)
}

/// Puts the sum of what stands there.
fn put_sum(made: &mut Vec<u8>) -> Result<(), NoMemory>
    ensures text { OnOk result
        (made.new.items ≡ made.old.items ++ to_be_bytes w32 (crc made.old.items)) }
    ensures sum { crc made.old.items < 2 ^ 32 }
{
    let sum = crc_of(made.as_slice());
    put_u32(made, sum)
}

/// Puts all of a record but its sum.
#[tactic(auto, unfolding(crate::specs::RecordWritten::body_text))]
fn put_body(made: &mut Vec<u8>, script: &[u8], entries: &[Entry]) -> Result<(), NoMemory>
    requires { All (λ e. HasLawfulKey e.op) entries.now }
    ensures ok { OnOk result
        (made.new.items ≡ made.old.items ++ body_text script.now entries.now) }
    ensures typed { OnOk result (AllByRecursion IsTyped entries.now) }
{
    put_u64(made, MAGIC)?;
    put_counted(made, script)?;
    put_u64(made, entries.len() as u64)?;
    put_entries(made, entries)
}

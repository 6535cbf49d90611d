//! Reads a record: how it begins, its script, its entries, and at last its sum.

ghost use Rattle.std.specs.Prelude.{◌≡◌, ◌≤◌, ◌+◌, nat_le, length, IfOk, Ok, Err, ◌⊎◌};
ghost use Rattle.base.specs.Grammar.{IsBytes};
ghost use Rattle.base.specs.Reading.{Answers, Gives};
ghost use Rattle.journal_records.specs.Bounds.{member_count};
ghost use Rattle.journal_records.specs.FieldReading.{MovesOn};
ghost use Rattle.journal_records.specs.Limits.{most_bytes};
ghost use Rattle.journal_records.specs.RecordReading.{begin_at, body_at, record_of, test_sum};
ghost use Rattle.journal_records.specs.RecordText.{IsRecord};
ghost use Rattle.journal_records.specs.Writable.{IsWritable};
ghost use Rattle.journal_records.specs.declared.run_record.Record.{Record};

use crate::entries::next_entries;
use crate::fields::next_blob;
use crate::kinds::MAGIC;
use crate::reader::Reader;
use crate::{MOST_BYTES, Record, RecordCause};
use std::alloc::Global;
use wire_bytes::{Blob, crc_of};
use world_core::Journal;

/// Reads a record. What it gives shares the bytes, where those of the blob are counted; only the names of pages are copied.
pub fn read_record(alloc: Global, bytes: &Blob) -> Result<Record, RecordCause>
    // What is read is the record that the bytes are, and each record is read.
    ensures found { IfOk result (IsRecord bytes.now) }
    ensures only { (r : Record) → IsRecord bytes.now r → length bytes.now ≤ most_bytes
        → (result ≡ Ok r) ⊎ (result ≡ Err RecordCause.NoMemory) }

    // The first refusal from left to right.
    ensures exact { Gives RecordCause.NoMemory (λ r. r) result (record_of bytes.now) }
    ensures writable { IfOk result (λ r. IsWritable r.journal) }
    ensures few { IfOk result (λ r. length r.script + member_count r.journal ≤ length bytes.now) }
{
    record_of(alloc, bytes)
}

#[tactic(auto, unfolding(crate::specs::RecordReading::record_of))]
fn record_of(alloc: Global, bytes: &Blob) -> Result<Record, RecordCause>
    ensures exact { Gives RecordCause.NoMemory (λ r. r) result (record_of bytes.now) }
    ensures bytes { IsBytes bytes.now }
{
    if !may_be_record(bytes.bytes()) {
        return Err(RecordCause::TooLong);
    }
    let mut reader = Reader::new(bytes);
    let record = next_body(alloc, &mut reader)?;
    test_sum(&mut reader)?;
    Ok(record)
}

/// Whether these are no more bytes than a record may have.
fn may_be_record(bytes: &[u8]) -> bool
    ensures few { result ≡ nat_le (length bytes.now) most_bytes }
    ensures bytes { IsBytes bytes.now }
{
    bytes.len() as u64 <= MOST_BYTES
}

/// The script behind the bytes that a record begins with.
#[tactic(auto, unfolding(crate::specs::RecordReading::begin_at))]
fn next_script(reader: &mut Reader<'_>) -> Result<Blob, RecordCause>
    ensures { MovesOn RecordCause.NoMemory (λ script. script) reader.new result
        (begin_at reader.old) }
{
    let first = reader.next_u64()?;
    if first != MAGIC {
        return Err(RecordCause::BadMagic);
    }
    next_blob(reader)
}

/// The script and the entries.
#[tactic(auto, unfolding(crate::specs::RecordReading::body_at))]
fn next_body(alloc: Global, reader: &mut Reader<'_>) -> Result<Record, RecordCause>
    ensures { MovesOn RecordCause.NoMemory (λ r. r) reader.new result (body_at reader.old) }
{
    let script = next_script(reader)?;
    let count = reader.next_u64()?;
    let entries = next_entries(alloc, count, reader)?;
    Ok(Record {
        script,
        journal: Journal::from_entries(entries),
    })
}

/// Tests the sum of all bytes before it, behind which nothing stands.
#[tactic(auto, unfolding(crate::specs::RecordReading::test_sum))]
fn test_sum(reader: &mut Reader<'_>) -> Result<(), RecordCause>
    ensures { Answers (λ x. x) result (test_sum reader.old) }
{
    let computed = crc_of(reader.passed());
    let kept = reader.next_u32()?;
    if !reader.is_at_end() {
        return Err(RecordCause::Trailing(reader.place()));
    }
    if kept == computed {
        Ok(())
    } else {
        Err(RecordCause::BadSum { kept, computed })
    }
}

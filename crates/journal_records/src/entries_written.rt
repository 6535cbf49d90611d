//! Writes entries, field by field. What the types of the fields say, such as that a text is UTF-8, is told beside what was written:
//! so what stands there is a record.

ghost use Rattle.std.specs.Prelude.{◌≡◌, ◌++◌, ◌∷◌, ◌^◌, ◌<◌, ℕ, length, OnOk};
ghost use Rattle.std.specs.Int.{w32, w64, w128, to_be_bytes};
ghost use Rattle.std.specs.List.{All, AllByRecursion, flat_map};
ghost use Rattle.std.specs.Str.{IsUtf8};
ghost use Rattle.block_keys.specs.KeyText.{IsKeyText, key_text};
ghost use Rattle.block_keys.specs.Keys.{IsLawfulKey};
ghost use Rattle.journal_records.specs.RecordWritten.{IsTyped, IsTypedOp, IsTypedReply, counted, entry_text, op_text, reply_text};
ghost use Rattle.journal_records.specs.Writable.{HasLawfulKey};

use crate::kinds::{
    ABSENT, BLOCK_PAGE, CLOCK, CLOCKED, DELETE, DELETED, FAILED, FOUND, GET, GET_RANGE, NAMES, PUT,
    ROOT_PAGE, STORED,
};
use base::NoMemory;
use block_keys::Key;
use label_sets::Text;
use ulid_core::{ENTROPY_COUNT, Ulid};
use wire_bytes::{put_bytes, put_u8, put_u32, put_u64};
use world_core::{Entry, Op, Reply};

/// Puts a length in four bytes. No length in a record takes more.
fn put_length(out: &mut Vec<u8>, length: usize) -> Result<(), NoMemory>
    ensures { OnOk result (out.new.items ≡ out.old.items ++ to_be_bytes w32 length) }
{
    put_bytes(out, &(length as u64).to_be_bytes()[4..])
}

/// Puts bytes behind their length.
pub(crate) fn put_counted(out: &mut Vec<u8>, bytes: &[u8]) -> Result<(), NoMemory>
    ensures { OnOk result (out.new.items ≡ out.old.items ++ counted bytes.now) }
{
    put_length(out, bytes.len())?;
    put_bytes(out, bytes)
}

/// Puts a text behind its length.
fn put_text(out: &mut Vec<u8>, text: &str) -> Result<(), NoMemory>
    ensures ok { OnOk result (out.new.items ≡ out.old.items ++ counted text.now) }
    ensures utf8 { IsUtf8 text.now }
{
    put_counted(out, text.as_bytes())
}

/// Puts a kind, and a key's text behind its length.
fn put_key(out: &mut Vec<u8>, kind: u8, key: Key) -> Result<(), NoMemory>
    requires { IsLawfulKey key }
    ensures ok { OnOk result (out.new.items ≡ out.old.items ++ kind ∷ counted (key_text key)) }
    ensures written { OnOk result (IsKeyText (key_text key) key) }
{
    put_u8(out, kind)?;
    let text = key.text(*out.allocator())?;
    put_text(out, text.as_str())
}

/// The number of a ULID.
fn number_of(ulid: Ulid) -> u128
    ensures number { result ≡ ulid }
    ensures small { ulid < 2 ^ 128 }
{
    u128::from(ulid.time()) * ENTROPY_COUNT + ulid.entropy()
}

/// Puts a ULID as a number of sixteen bytes.
fn put_ulid(out: &mut Vec<u8>, ulid: Ulid) -> Result<(), NoMemory>
    ensures ok { OnOk result (out.new.items ≡ out.old.items ++ to_be_bytes w128 ulid) }
    ensures small { ulid < 2 ^ 128 }
{
    put_bytes(out, &number_of(ulid).to_be_bytes())
}

/// Puts two numbers of eight bytes.
fn put_numbers(out: &mut Vec<u8>, from: u64, len: u64) -> Result<(), NoMemory>
    ensures ok { OnOk result (out.new.items
        ≡ out.old.items ++ (to_be_bytes w64 from ++ to_be_bytes w64 len)) }
    ensures small { (from < 2 ^ 64) × (len < 2 ^ 64) }
{
    put_u64(out, from)?;
    put_u64(out, len)
}

/// Puts a text behind its length, and how many names a page has at most.
fn put_page(out: &mut Vec<u8>, after: &Text, limit: u32) -> Result<(), NoMemory>
    ensures ok { OnOk result (out.new.items
        ≡ out.old.items ++ (counted after.now ++ to_be_bytes w32 limit)) }
    ensures utf8 { OnOk result (IsUtf8 after.now) }
{
    put_text(out, after.as_str())?;
    put_u32(out, limit)
}

/// Puts a ULID, a text behind its length, and how many names a page has at most.
fn put_block_page(out: &mut Vec<u8>, ulid: Ulid, after: &Text, limit: u32) -> Result<(), NoMemory>
    ensures ok { OnOk result (out.new.items ≡ out.old.items
        ++ (to_be_bytes w128 ulid ++ (counted after.now ++ to_be_bytes w32 limit))) }
    ensures small { ulid < 2 ^ 128 }
    ensures utf8 { OnOk result (IsUtf8 after.now) }
{
    put_ulid(out, ulid)?;
    put_page(out, after, limit)
}

fn put_op(out: &mut Vec<u8>, op: &Op) -> Result<(), NoMemory>
    requires { HasLawfulKey op.now }
    ensures ok { OnOk result (out.new.items ≡ out.old.items ++ op_text op.now) }
    ensures typed { OnOk result (IsTypedOp op.now) }
{
    match op {
        Op::Clock(moment) => {
            put_u8(out, CLOCK)?;
            put_u64(out, moment.ms)
        }
        Op::Put(key, blob) => {
            put_key(out, PUT, *key)?;
            put_counted(out, blob.bytes())
        }
        Op::Get(key) => put_key(out, GET, *key),
        Op::GetRange(key, from, len) => {
            put_key(out, GET_RANGE, *key)?;
            put_numbers(out, *from, *len)
        }
        Op::Delete(key) => put_key(out, DELETE, *key),
        Op::RootPage(after, limit) => {
            put_u8(out, ROOT_PAGE)?;
            put_page(out, after, *limit)
        }
        Op::BlockPage(ulid, after, limit) => {
            put_u8(out, BLOCK_PAGE)?;
            put_block_page(out, *ulid, after, *limit)
        }
    }
}

/// Puts texts, each behind its length.
fn put_names(out: &mut Vec<u8>, names: &[Text]) -> Result<(), NoMemory>
    ensures ok { OnOk result (out.new.items ≡ out.old.items ++ flat_map counted names.now) }
    ensures utf8 { OnOk result (AllByRecursion IsUtf8 names.now) }
{
    for name in names {
        put_text(out, name.as_str())?;
    }
    Ok(())
}

fn put_reply(out: &mut Vec<u8>, reply: &Reply) -> Result<(), NoMemory>
    ensures ok { OnOk result (out.new.items ≡ out.old.items ++ reply_text reply.now) }
    ensures typed { OnOk result (IsTypedReply reply.now) }
{
    match reply {
        Reply::Clocked => put_u8(out, CLOCKED),
        Reply::Stored => put_u8(out, STORED),
        Reply::Found(blob) => {
            put_u8(out, FOUND)?;
            put_counted(out, blob.bytes())
        }
        Reply::Absent => put_u8(out, ABSENT),
        Reply::Deleted => put_u8(out, DELETED),
        Reply::Names(names) => {
            put_u8(out, NAMES)?;
            put_length(out, names.len())?;
            put_names(out, names.members())
        }
        Reply::Failed(landed) => put_bytes(out, &[FAILED, u8::from(*landed)]),
    }
}

#[tactic(auto, unfolding(crate::specs::RecordWritten::entry_text))]
fn put_entry(out: &mut Vec<u8>, entry: &Entry) -> Result<(), NoMemory>
    requires { HasLawfulKey entry.now.op }
    ensures ok { OnOk result (out.new.items ≡ out.old.items ++ entry_text entry.now) }
    ensures typed { OnOk result (IsTyped entry.now) }
{
    put_u32(out, entry.seat)?;
    put_u64(out, entry.moment.ms)?;
    put_op(out, &entry.op)?;
    put_reply(out, &entry.reply)
}

/// Puts entries one after another.
pub(crate) fn put_entries(out: &mut Vec<u8>, entries: &[Entry]) -> Result<(), NoMemory>
    requires { All (λ e. HasLawfulKey e.op) entries.now }
    ensures ok { OnOk result (out.new.items ≡ out.old.items ++ flat_map entry_text entries.now) }
    ensures typed { OnOk result (AllByRecursion IsTyped entries.now) }
{
    for entry in entries {
        put_entry(out, entry)?;
    }
    Ok(())
}

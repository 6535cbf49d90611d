//! How many bytes a record will have, before it is written.
ghost use Rattle.std.specs.Prelude.{◌≡◌, ◌-◌, ◌^◌, ◌≤◌, min, length, sum_by};
ghost use Rattle.block_keys.specs.KeyText.{key_text};
ghost use Rattle.journal_records.specs.RecordWritten.{counted, entry_text, op_text, record_text, reply_text};

use block_keys::Key;
use label_sets::Text;
use world_core::{Entry, Op, Reply};

/// How many bytes a record has beside its script and its entries: its beginning, the script's length, the entries' count, and
/// the sum.
const FRAME_SIZE: u64 = 24;

/// How many bytes the text of a key has: 26 of its ULID, a slash, and its name.
#[tactic(auto, using(crate::proofs::PartSizes::key_sizes))]
fn key_size(key: &Key) -> u64
    ensures size { result ≡ length (key_text key.now) }
    ensures small { result ≤ 45 }
{
    match key {
        Key::Meta(_) => 36,
        Key::Index(_) => 32,
        Key::Segment(_, _) => 40,
        Key::Mark(_) => 45,
    }
}

/// How many bytes counted bytes have.
fn counted_size(bytes: &[u8]) -> u64
    ensures { result ≡ length (counted bytes.now) }
{
    bytes.len() as u64 + 4
}

/// How many bytes an operation has, or the greatest number where they are more.
#[tactic(auto, using(crate::proofs::PartSizes::op_sizes))]
fn op_size(op: &Op) -> u64
    ensures { result ≡ min (length (op_text op.now)) (2 ^ 64 - 1) }
{
    match op {
        Op::Clock(_) => 9,
        Op::Put(key, blob) => counted_size(blob.bytes()).saturating_add(5 + key_size(key)),
        Op::Get(key) | Op::Delete(key) => 5 + key_size(key),
        Op::GetRange(key, _, _) => 21 + key_size(key),
        Op::RootPage(after, _) => counted_size(after.as_str().as_bytes()).saturating_add(5),
        Op::BlockPage(_, after, _) => counted_size(after.as_str().as_bytes()).saturating_add(21),
    }
}

/// How many bytes texts have one after another, or the greatest number where they are more.
fn names_size(names: &[Text]) -> u64
    ensures { result ≡ min (sum_by (λ name. length (counted name)) names.now) (2 ^ 64 - 1) }
{
    let mut size = 0u64;
    for name in names {
        size = size.saturating_add(counted_size(name.as_str().as_bytes()));
    }
    size
}

/// How many bytes a reply has, or the greatest number where they are more.
#[tactic(auto, using(crate::proofs::PartSizes::names_parts))]
fn reply_size(reply: &Reply) -> u64
    ensures { result ≡ min (length (reply_text reply.now)) (2 ^ 64 - 1) }
{
    match reply {
        Reply::Found(blob) => counted_size(blob.bytes()).saturating_add(1),
        Reply::Names(names) => names_size(names.members()).saturating_add(5),
        Reply::Failed(_) => 2,
        _ => 1,
    }
}

/// How many bytes an entry has, or the greatest number where they are more.
#[tactic(auto, using(crate::proofs::PartSizes::entry_parts))]
fn entry_size(entry: &Entry) -> u64
    ensures { result ≡ min (length (entry_text entry.now)) (2 ^ 64 - 1) }
{
    op_size(&entry.op)
        .saturating_add(reply_size(&entry.reply))
        .saturating_add(12)
}

/// How many bytes entries have one after another, or the greatest number where they are more.
fn entries_size(entries: &[Entry]) -> u64
    ensures { result ≡ min (sum_by (λ e. length (entry_text e)) entries.now) (2 ^ 64 - 1) }
{
    let mut size = 0u64;
    for entry in entries {
        size = size.saturating_add(entry_size(entry));
    }
    size
}

/// How many bytes a record has, or the greatest number where they are more.
#[tactic(auto, using(crate::proofs::PartSizes::record_parts))]
pub(crate) fn record_size(script: &[u8], entries: &[Entry]) -> u64
    ensures { result ≡ min (length (record_text script.now entries.now)) (2 ^ 64 - 1) }
{
    entries_size(entries)
        .saturating_add(script.len() as u64)
        .saturating_add(FRAME_SIZE)
}

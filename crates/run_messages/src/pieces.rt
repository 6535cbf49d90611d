//! The pieces of a message.

ghost use Rattle.std.specs.Prelude.{◌≡◌, ◌≤◌, ◌++◌, IsTrue, OnOk, codes, option_copied};
ghost use Rattle.base.specs.Decimal.{decimal_text};
ghost use Rattle.ulid_core.specs.UlidText.{text_of};
ghost use Rattle.block_keys.specs.Keys.{IsLawfulKey, is_lawful_key};
ghost use Rattle.run_messages.specs.Messages.{entry_words, excess_words, front_words, key_words, line_words, meaning_words, message_with, op_words, others_words, passed_by, span_words};

use crate::finding::Finding;
use crate::sentences::sentence;
use crate::told::Told;
use base::{NoMemory, put_unsigned};
use block_keys::{Key, SEGMENT_LIMIT};
use breach_finding::BreachRule;
use ulid_core::Ulid;
use world_core::{Entry, Op};

/// Appends the message of a failure.
#[tactic(auto, unfolding(crate::specs::Messages::message_with))]
pub(crate) fn put_message(
    out: &mut Vec<u8>,
    told: &Told,
    lines: &[u64],
    entry: Option<&Entry>,
    date: &[u8],
) -> Result<(), NoMemory>
    ensures { OnOk result (out.new.items ≡ out.old.items
        ++ message_with lines.now (option_copied entry.entry) told.now date.now) }
{
    put_front(out, lines, told.line.as_str())?;
    put_entry(out, entry, date)?;
    put_meaning(out, told.finding)
}

/// Appends the line of the report, with that of its task before it.
#[tactic(auto, unfolding(crate::specs::Messages::front_words))]
fn put_front(out: &mut Vec<u8>, lines: &[u64], told: &str) -> Result<(), NoMemory>
    ensures { OnOk result (out.new.items ≡ out.old.items ++ front_words lines.now told.now) }
{
    put_lines(out, lines)?;
    put_text(out, told)?;
    put_text(out, ". ")
}

/// Appends what a failure means, and by how much a rule was broken.
#[tactic(auto, unfolding(crate::specs::Messages::meaning_words))]
fn put_meaning(out: &mut Vec<u8>, finding: Finding) -> Result<(), NoMemory>
    ensures { OnOk result (out.new.items ≡ out.old.items ++ meaning_words finding) }
{
    put_text(out, sentence(finding))?;
    put_excess(out, finding)?;
    put_text(out, "\n")
}

pub(crate) fn put_text(out: &mut Vec<u8>, text: &str) -> Result<(), NoMemory>
    ensures { OnOk result (out.new.items ≡ out.old.items ++ text.now) }
{
    out.extend_from_slice(text.as_bytes())?;
    Ok(())
}

/// Appends the number of the task's line, or of the first one of which the task may be.
#[tactic(auto, unfolding(crate::specs::Messages::line_words))]
fn put_lines(out: &mut Vec<u8>, lines: &[u64]) -> Result<(), NoMemory>
    ensures { OnOk result (out.new.items ≡ out.old.items ++ line_words lines.now) }
{
    match lines {
        [] => Ok(()),
        [line, others @ ..] => put_line(out, *line, others),
    }
}

fn put_line(out: &mut Vec<u8>, line: u64, others: &[u64]) -> Result<(), NoMemory>
    ensures { OnOk result (out.new.items ≡ out.old.items
        ++ (codes "line " ++ decimal_text line ++ others_words others.now ++ codes ": ")) }
{
    put_text(out, "line ")?;
    put_unsigned(out, line)?;
    put_text(out, others_sentence(others))?;
    put_text(out, ": ")
}

#[tactic(auto, unfolding(crate::specs::Messages::others_words))]
fn others_sentence(others: &[u64]) -> &'static str
    ensures { result.now ≡ others_words others.now }
{
    match others {
        [] => "",
        [_, ..] => " or a later one of this gateway",
    }
}

/// Appends which operation an entry has, and when it was done.
#[tactic(auto, unfolding(crate::specs::Messages::entry_words))]
fn put_entry(out: &mut Vec<u8>, entry: Option<&Entry>, date: &[u8]) -> Result<(), NoMemory>
    ensures { OnOk result
        (out.new.items ≡ out.old.items ++ entry_words (option_copied entry.entry) date.now) }
{
    match entry {
        Some(entry) => {
            put_text(out, "Entry ")?;
            put_unsigned(out, entry.seq)?;
            put_text(out, ", at ")?;
            out.extend_from_slice(date)?;
            put_text(out, ": ")?;
            put_op(out, &entry.op)?;
            put_text(out, ". ")
        }
        None => Ok(()),
    }
}

/// Appends what an operation does.
#[tactic(auto, unfolding(crate::specs::Messages::op_words))]
fn put_op(out: &mut Vec<u8>, op: &Op) -> Result<(), NoMemory>
    ensures { OnOk result (out.new.items ≡ out.old.items ++ op_words op.now) }
{
    match op {
        Op::Clock(_) => put_text(out, "set the clock"),
        Op::Put(key, _) => put_deed(out, "put ", key),
        Op::Get(key) => put_deed(out, "get ", key),
        Op::GetRange(key, _, _) => put_deed(out, "get a part of ", key),
        Op::Delete(key) => put_deed(out, "delete ", key),
        Op::RootPage(_, _) => put_text(out, "list the blocks"),
        Op::BlockPage(ulid, _, _) => put_listing(out, ulid),
    }
}

fn put_listing(out: &mut Vec<u8>, ulid: &Ulid) -> Result<(), NoMemory>
    ensures { OnOk result
        (out.new.items ≡ out.old.items ++ codes "list the objects of " ++ text_of ulid.now) }
{
    put_text(out, "list the objects of ")?;
    ulid.put_text(out)
}

fn put_deed(out: &mut Vec<u8>, deed: &str, key: &Key) -> Result<(), NoMemory>
    ensures { OnOk result (out.new.items ≡ out.old.items ++ deed.now ++ key_words key.now) }
{
    put_text(out, deed)?;
    put_key(out, key)
}

/// Appends a key, or its block where a segment's number has no name.
#[tactic(auto, unfolding(crate::specs::Messages::key_words))]
fn put_key(out: &mut Vec<u8>, key: &Key) -> Result<(), NoMemory>
    ensures { OnOk result (out.new.items ≡ out.old.items ++ key_words key.now) }
{
    if !is_lawful(key) {
        return key.ulid().put_text(out);
    }
    let alloc = *out.allocator();
    let text = key.text(alloc)?;
    put_text(out, text.as_str())
}

fn is_lawful(key: &Key) -> bool
    ensures value { result ≡ is_lawful_key key.now }
    ensures lawful { IsTrue result → IsLawfulKey key.now }
{
    match key {
        Key::Segment(_, number) => 1 <= *number && *number <= SEGMENT_LIMIT,
        Key::Meta(_) | Key::Index(_) | Key::Mark(_) => true,
    }
}

/// Appends by how much a rule of time was broken.
#[tactic(auto, unfolding(crate::specs::Messages::excess_words))]
fn put_excess(out: &mut Vec<u8>, finding: Finding) -> Result<(), NoMemory>
    ensures { OnOk result (out.new.items ≡ out.old.items ++ excess_words finding) }
{
    match finding {
        Finding::Breach(breach) => {
            put_passed(
                out,
                breach.rule,
                breach.found.saturating_sub(breach.allowed),
            )
        }
        _ => Ok(()),
    }
}

/// Appends by how much this rule was broken, if it is one of time.
fn put_passed(out: &mut Vec<u8>, rule: BreachRule, ms: u64) -> Result<(), NoMemory>
    ensures { OnOk result (out.new.items ≡ out.old.items ++ passed_by rule ms) }
{
    match rule {
        BreachRule::Bucket => Ok(()),
        BreachRule::UploadTime
        | BreachRule::MarkTime
        | BreachRule::SyncTime
        | BreachRule::ViewTime
        | BreachRule::ReadTime => {
            put_text(out, " That is passed by ")?;
            put_span(out, ms)?;
            put_text(out, ".")
        }
    }
}

/// Appends how long a span of milliseconds is.
#[tactic(auto, unfolding(crate::specs::Messages::span_words))]
fn put_span(out: &mut Vec<u8>, ms: u64) -> Result<(), NoMemory>
    ensures { OnOk result (out.new.items ≡ out.old.items ++ span_words ms) }
{
    put_unsigned(out, ms)?;
    put_text(out, " ms (")?;
    put_unsigned(out, ms / 3_600_000)?;
    put_text(out, " h ")?;
    put_unsigned(out, ms / 60_000 % 60)?;
    put_text(out, " min)")
}

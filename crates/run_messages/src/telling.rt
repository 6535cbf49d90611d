//! The messages of a run: a line for each failure that its report tells of, at most twenty, and then how many more there are.

ghost use Rattle.std.specs.Prelude.{◌≡◌, ◌++◌, ℕ, List, IfOk, OnOk, option_copied, take};
ghost use Rattle.run_messages.specs.Messages.{AreMessages, IsDateAt, IsDated, count_words, entry_of, line_list, line_of, lines_at, message_of, most_told, more_words, told_lines};

use crate::actors::entry_lines;
use crate::dates::date_of;
use crate::finding::Finding;
use crate::pieces::{put_message, put_text};
use crate::told::Told;
use base::{NoMemory, put_unsigned};
use script_core::Script;
use std::alloc::Global;
use world_core::{Entry, Journal};

/// How many failures are told at most.
const MOST: usize = 20;

/// Appends the messages of failures, with the numbers of the lines of the script's tasks, where they are known. Those of a breach are looked
/// up in the script.
pub(crate) fn put_messages(
    out: &mut Vec<u8>,
    told: &[Told],
    lines: &[u64],
    script: Option<&Script>,
    journal: &[Entry],
) -> Result<(), NoMemory>
    ensures { OnOk result ((text : List ℕ)
        × AreMessages lines.now (option_copied script.entry) journal.now
        (take most_told told.now) text
        × (out.new.items ≡ out.old.items ++ text ++ more_words told.now)) }
{
    put_each(out, first_of(told), lines, script, journal)?;
    put_more(out, told)
}

/// The failures that are told.
pub(crate) fn first_of(told: &[Told]) -> &[Told]
    ensures { result.now ≡ take most_told told.now }
{
    &told[..MOST.min(told.len())]
}

/// Appends how many failures are not told.
#[tactic(auto, unfolding(crate::specs::Messages::more_words))]
fn put_more(out: &mut Vec<u8>, told: &[Told]) -> Result<(), NoMemory>
    ensures { OnOk result (out.new.items ≡ out.old.items ++ more_words told.now) }
{
    if MOST < told.len() {
        put_count(out, (told.len() - MOST) as u64)
    } else {
        Ok(())
    }
}

#[tactic(auto, unfolding(crate::specs::Messages::count_words))]
fn put_count(out: &mut Vec<u8>, count: u64) -> Result<(), NoMemory>
    ensures { OnOk result (out.new.items ≡ out.old.items ++ count_words count) }
{
    put_text(out, "Failures not told: ")?;
    put_unsigned(out, count)?;
    put_text(out, ".\n")
}

/// Appends the messages of failures, one after another.
fn put_each(
    out: &mut Vec<u8>,
    told: &[Told],
    lines: &[u64],
    script: Option<&Script>,
    journal: &[Entry],
) -> Result<(), NoMemory>
    ensures { OnOk result ((text : List ℕ)
        × AreMessages lines.now (option_copied script.entry) journal.now told.now text
        × (out.new.items ≡ out.old.items ++ text)) }
{
    let [first, more @ ..] = told else {
        return Ok(());
    };
    put_one(out, first, lines, script, journal)?;
    put_each(out, more, lines, script, journal)
}

/// Appends the message of one failure.
fn put_one(
    out: &mut Vec<u8>,
    told: &Told,
    lines: &[u64],
    script: Option<&Script>,
    journal: &[Entry],
) -> Result<(), NoMemory>
    ensures { OnOk result ((date : List ℕ) × IsDated journal.now told.now date
        × (out.new.items ≡ out.old.items
        ++ message_of lines.now (option_copied script.entry) journal.now told.now date)) }
{
    let alloc = *out.allocator();
    let own = told_lines(alloc, told, lines, script, journal)?;
    let entry = entry_of(journal, told.finding);
    let date = date_at(alloc, entry)?;
    put_message(out, told, &own, entry, &date)
}

/// The lines of which a failure tells.
fn told_lines(
    alloc: Global,
    told: &Told,
    lines: &[u64],
    script: Option<&Script>,
    journal: &[Entry],
) -> Result<Vec<u64>, NoMemory>
    ensures { IfOk result (λ own. own.items
        ≡ told_lines lines.now (option_copied script.entry) journal.now told.now) }
{
    match told.finding {
        Finding::Breach(_) => lines_at(alloc, script, journal, entry_of(journal, told.finding)),
        Finding::Fault(_)
        | Finding::Missing(_)
        | Finding::Damaged(_)
        | Finding::Refused(_)
        | Finding::NoView
        | Finding::TooMany
        | Finding::TooLarge
        | Finding::Script(_) => line_list(alloc, line_of(lines, told.task)),
    }
}

/// The lines by which an entry may have been made, where both the script and the entry are known.
fn lines_at(
    alloc: Global,
    script: Option<&Script>,
    journal: &[Entry],
    entry: Option<&Entry>,
) -> Result<Vec<u64>, NoMemory>
    ensures { IfOk result (λ lines. lines.items
        ≡ lines_at (option_copied script.entry) journal.now (option_copied entry.entry)) }
{
    let Some(script) = script else {
        return Ok(Vec::new(alloc));
    };
    match entry {
        Some(entry) => entry_lines(alloc, script, journal, entry),
        None => Ok(Vec::new(alloc)),
    }
}

fn line_list(alloc: Global, line: Option<u64>) -> Result<Vec<u64>, NoMemory>
    ensures { IfOk result (λ lines. lines.items ≡ line_list line) }
{
    let mut lines = Vec::new(alloc);
    if let Some(line) = line {
        lines.push(line)?;
    }
    Ok(lines)
}

/// The date of an entry, or nothing where there is none.
fn date_at(alloc: Global, entry: Option<&Entry>) -> Result<Vec<u8>, NoMemory>
    ensures { IfOk result (λ date. IsDateAt (option_copied entry.entry) date.items) }
{
    match entry {
        Some(entry) => date_of(alloc, entry.moment),
        None => Ok(Vec::new(alloc)),
    }
}

/// The entry that a failure names.
fn entry_of(journal: &[Entry], finding: Finding) -> Option<&Entry>
    ensures { option_copied result ≡ entry_of journal.now finding }
{
    let number = finding.entry();
    if number == 0 {
        return None;
    }
    journal.get(number as usize - 1)
}

/// The line of the task whose place this is, counted from 1.
fn line_of(lines: &[u64], task: u64) -> Option<u64>
    ensures { result ≡ line_of lines.now task }
{
    if task == 0 {
        return None;
    }
    lines.get(task as usize - 1).copied()
}

//! Reading a script line by line.

ghost use Rattle.std.specs.Prelude.{◌≡◌, ◌≤◌, Some, None, length, option_copied, if◌then◌else◌};
ghost use Rattle.script_core.specs.GivenUp.{GivesUnless, IsKindGivenUp, IsTextGivenUp, IsLineGivenUp, AreLinesGivenUp, IsWholeGivenUp};
ghost use Rattle.script_core.specs.Reading.{is_series, kind_line, text_line, line_at, lines_at, script_of};
ghost use Rattle.std.specs.Str.{is_utf8};
ghost use Rattle.script_fields.specs.Fields.{lines_of};
ghost use Rattle.script_fields.specs.Limits.{longest_text};
ghost use Rattle.script_core.specs.View.{state_of};

use crate::Script;
use crate::draft::Draft;
use crate::phase_lines::{at_line, clean_line, compact_line, query_line, sync_line, upload_line};
use crate::setup_lines::{block_line, gateway_line, rule_line, series_line, shelf_line};
use moment_core::Rules;
use script_fields::{
    LineCause, LineKind, LineRefusal, ScriptRefusal, cut_line, is_silent, next_field,
};
use std::alloc::Global;

/// How many bytes a script may have.
pub const LONGEST_TEXT: usize = 67_108_864;

/// Reads a script.
#[tactic(auto, using(crate::proofs::GivenUpLines::whole_given_up), unfolding(crate::specs::Reading::script_of))]
pub(crate) fn read_script(alloc: Global, text: &[u8]) -> Result<Script, ScriptRefusal>
    ensures { GivesUnless (IsWholeGivenUp text.now) (λ script. script) result
        (script_of text.now) }
{
    if text.len() > LONGEST_TEXT {
        return Err(ScriptRefusal::TooLong);
    }
    let mut draft = Draft::new(alloc, Rules::standard(alloc));
    match read_lines(&mut draft, alloc, text) {
        Ok(()) => draft.finish(alloc),
        Err(refusal) => {
            drop(draft);
            Err(refusal)
        }
    }
}

/// Reads the lines of a text in order.
fn read_lines(draft: &mut Draft, alloc: Global, text: &[u8]) -> Result<(), ScriptRefusal>
    requires { length text.now ≤ longest_text }
    ensures { GivesUnless (AreLinesGivenUp (state_of draft.old) 1 (lines_of text.now))
        (λ _. state_of draft.new) result (lines_at (state_of draft.old) 1 (lines_of text.now)) }
{
    let mut number = 0u32;
    let mut left = text;
    while !left.is_empty() {
        let (line, rest) = cut_line(left);
        number += 1;
        read_line(draft, alloc, number, line)?;
        left = rest;
    }
    Ok(())
}

#[tactic(auto, using(crate::proofs::GivenUpLines::line_given_up), unfolding(crate::specs::Reading::line_at, crate::specs::Reading::spoken_line))]
pub(crate) fn read_line(
    draft: &mut Draft,
    alloc: Global,
    number: u32,
    line: &[u8],
) -> Result<(), ScriptRefusal>
    ensures { GivesUnless (IsLineGivenUp (state_of draft.old) number line.now)
        (λ _. state_of draft.new) result (line_at (state_of draft.old) number line.now) }
{
    if is_silent(line) {
        return Ok(());
    }
    match text_of(line) {
        Some(text) => read_text(draft, alloc, number, text),
        None => {
            draft.end_block()?;
            Err(ScriptRefusal::BadLine(number, LineCause::NotText))
        }
    }
}

/// The bytes as text, where they are UTF-8.
pub(crate) fn text_of(line: &[u8]) -> Option<&str>
    ensures { option_copied result ≡ (if is_utf8 line.now then Some line.now else None) }
{
    match str::from_utf8(line) {
        Ok(text) => Some(text),
        Err(_) => None,
    }
}

#[tactic(auto, using(crate::proofs::GivenUpLines::text_given_up, crate::proofs::GivenUpLines::series_given_up), unfolding(crate::specs::Reading::text_line))]
fn read_text(draft: &mut Draft, alloc: Global, number: u32, text: &str) -> Result<(), ScriptRefusal>
    ensures { GivesUnless (IsTextGivenUp (state_of draft.old) number text.now)
        (λ _. state_of draft.new) result (text_line (state_of draft.old) number text.now) }
{
    let (word, fields) = next_field(Some(text));
    let kind = LineKind::of_word(word);
    if !is_series(kind) {
        draft.end_block()?;
    }
    match read_fields(draft, alloc, number, kind, fields) {
        Ok(()) => Ok(()),
        Err(refusal) => Err(refusal.of_line(number)),
    }
}

fn is_series(kind: Option<LineKind>) -> bool
    ensures { result ≡ is_series kind }
{
    kind == Some(LineKind::Series)
}

#[tactic(auto, using(crate::proofs::GivenUpLines::kind_given_up), unfolding(crate::specs::Reading::kind_line, crate::specs::Lines::fields_line))]
fn read_fields(
    draft: &mut Draft,
    alloc: Global,
    number: u32,
    kind: Option<LineKind>,
    fields: Option<&str>,
) -> Result<(), LineRefusal>
    ensures { GivesUnless
        (IsKindGivenUp (state_of draft.old) kind (option_copied fields.entry))
        (λ _. state_of draft.new) result
        (kind_line (state_of draft.old) number kind (option_copied fields.entry)) }
{
    match kind.ok_or(LineCause::UnknownWord)? {
        LineKind::Rule => rule_line(draft, alloc, fields),
        LineKind::Gateway => gateway_line(draft, alloc, fields),
        LineKind::Block => block_line(draft, alloc, number, fields),
        LineKind::Series => series_line(draft, alloc, fields),
        LineKind::Shelf => shelf_line(draft, alloc, fields),
        LineKind::At => at_line(draft, alloc, number, fields),
        LineKind::Upload => upload_line(draft, number, fields),
        LineKind::Sync => sync_line(draft, number, fields),
        LineKind::Compact => compact_line(draft, number, fields),
        LineKind::Clean => clean_line(draft, number, fields),
        LineKind::Query => query_line(draft, alloc, number, fields),
    }
}

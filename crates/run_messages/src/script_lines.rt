//! Where the tasks of a script stand.

ghost use Rattle.std.specs.Prelude.{◌≡◌, ◌++◌, IfOk, OnOk};
ghost use Rattle.script_fields.specs.Fields.{lines_of};
ghost use Rattle.run_messages.specs.ScriptLines.{is_task_kind, kind_of, number_if, task_lines};

use crate::told::spoken;
use base::NoMemory;
use script_fields::{LineKind, cut_line, next_field};
use std::alloc::Global;

/// The numbers of the lines that have tasks, in their order.
pub(crate) fn task_lines(alloc: Global, script: &[u8]) -> Result<Vec<u64>, NoMemory>
    ensures { IfOk result (λ lines. lines.items ≡ task_lines 1 (lines_of script.now)) }
{
    let mut lines = Vec::new(alloc);
    let mut number = 0u64;
    let mut left = script;
    while !left.is_empty() {
        let (line, rest) = cut_line(left);
        number += 1;
        add_line(&mut lines, number, line)?;
        left = rest;
    }
    Ok(lines)
}

/// Adds the number of a line that has a task.
fn add_line(lines: &mut Vec<u64>, number: u64, line: &[u8]) -> Result<(), NoMemory>
    ensures { OnOk result
        (lines.new.items ≡ lines.old.items ++ number_if (is_task_kind (kind_of line.now)) number) }
{
    if is_task_kind(kind_of(line)) {
        lines.push(number)?;
    }
    Ok(())
}

/// The kind of a line, by its first word.
#[tactic(auto, unfolding(crate::specs::ScriptLines::kind_of))]
pub(crate) fn kind_of(line: &[u8]) -> Option<LineKind>
    ensures { result ≡ kind_of line.now }
{
    let text = spoken(line)?;
    let (word, _) = next_field(Some(text));
    LineKind::of_word(word)
}

fn is_task_kind(kind: Option<LineKind>) -> bool
    ensures { result ≡ is_task_kind kind }
{
    match kind {
        Some(
            LineKind::Upload
            | LineKind::Sync
            | LineKind::Compact
            | LineKind::Clean
            | LineKind::Query,
        ) => true,
        _ => false,
    }
}

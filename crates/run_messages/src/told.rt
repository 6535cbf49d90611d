//! The lines of a report that tell of failures.

ghost use Rattle.std.specs.Prelude.{◌≡◌, ◌++◌, IfOk, OnOk, option_copied};
ghost use Rattle.script_fields.specs.Fields.{lines_of};
ghost use Rattle.run_messages.specs.Told.{spoken, text_of, is_of_series, told_by, told_task, told_with, tasks_with};

use crate::finding::{Finding, finding_of, is_task};
use base::{List, NoMemory};
use label_sets::Text;
use script_fields::{cut_line, is_silent};
use std::alloc::Global;

/// A line of a report that tells of a failure. The number of its task counts from 1, and is 0 where the line is of none.
#[derive(Drop)]
pub struct Told {
    pub task: u64,
    pub line: Text,
    pub finding: Finding,
}

/// Lines of a report that tell of failures.
pub type ToldList = List<Told>;

/// The lines of a report that tell of failures, in their order.
pub fn told_in(alloc: Global, report: &[u8]) -> Result<ToldList, NoMemory>
    ensures { IfOk result (λ told. told ≡ told_by 0 (lines_of report.now)) }
{
    let mut told = List::new(alloc);
    let mut tasks = 0u64;
    let mut left = report;
    while !left.is_empty() {
        let (line, rest) = cut_line(left);
        let line = spoken(line);
        tasks = tasks_with(tasks, line);
        add_told(&mut told, alloc, tasks, line)?;
        left = rest;
    }
    Ok(told)
}

/// The text of a line that may tell of a failure, or of a task. Those of series are passed over, as there are many and long ones.
#[tactic(auto, unfolding(crate::specs::Told::spoken))]
pub(crate) fn spoken(line: &[u8]) -> Option<&str>
    ensures { option_copied result ≡ spoken line.now }
{
    if is_silent(line) || is_of_series(line) {
        return None;
    }
    text_of(line)
}

fn text_of(line: &[u8]) -> Option<&str>
    ensures { option_copied result ≡ text_of line.now }
{
    match str::from_utf8(line) {
        Ok(line) => Some(line),
        Err(_) => None,
    }
}

fn is_of_series(line: &[u8]) -> bool
    ensures { result ≡ is_of_series line.now }
{
    line.starts_with(b"series ")
}

/// How many tasks a report has told of with this line.
fn tasks_with(tasks: u64, line: Option<&str>) -> u64
    ensures { result ≡ tasks_with tasks (option_copied line.entry) }
{
    match line {
        Some(line) if is_task(line) => tasks.saturating_add(1),
        _ => tasks,
    }
}

/// Which task it is whose failure is told. The breach stands behind the lines of all tasks, and is of none.
fn told_task(finding: Finding, task: u64) -> u64
    ensures { result ≡ told_task finding task }
{
    match finding {
        Finding::Breach(_) => 0,
        Finding::Fault(_)
        | Finding::Missing(_)
        | Finding::Damaged(_)
        | Finding::Refused(_)
        | Finding::NoView
        | Finding::TooMany
        | Finding::TooLarge
        | Finding::Script(_) => task,
    }
}

/// Adds a line that tells of a failure.
fn add_told(
    told: &mut ToldList,
    alloc: Global,
    task: u64,
    line: Option<&str>,
) -> Result<(), NoMemory>
    ensures { OnOk result (told.new ≡ told.old ++ told_with task (option_copied line.entry)) }
{
    let Some(line) = line else {
        return Ok(());
    };
    let Some(finding) = finding_of(line) else {
        return Ok(());
    };
    let line = Text::from_str(alloc, line)?;
    told.push(Told {
        task: told_task(finding, task),
        line,
        finding,
    })
}

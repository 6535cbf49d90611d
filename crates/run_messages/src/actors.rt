//! By which lines of a script an entry of a journal may have been made.

ghost use Rattle.std.specs.Prelude.{◌≡◌, ◌++◌, IfOk, OnOk, count_by, flat_map, option_copied, slice_get};
ghost use Rattle.run_messages.specs.Actors.{entry_lines, is_clock, is_of_sync, line_if, may_be_of, phase_place, phase_tasks, worker_at, worker_lines};

use base::NoMemory;
use block_keys::Key;
use script_core::{Script, Task, Work, Worker};
use std::alloc::Global;
use world_core::{Entry, Op};

/// The lines of the tasks of which an entry may be one: those of the worker whose seat it has. It goes over the journal.
pub(crate) fn entry_lines(
    alloc: Global,
    script: &Script,
    journal: &[Entry],
    entry: &Entry,
) -> Result<Vec<u64>, NoMemory>
    ensures { IfOk result
        (λ lines. lines.items ≡ entry_lines script.now journal.now entry.now) }
{
    let place = phase_place(journal, entry.seq);
    let workers = script.workers(alloc, place)?;
    let worker = worker_at(workers.members(), entry.seat);
    let lines = worker_lines(alloc, phase_tasks(script, place), &entry.op, worker);
    drop(workers);
    lines
}

/// The place of the phase of the entry with this number.
fn phase_place(journal: &[Entry], number: u64) -> usize
    ensures { result ≡ phase_place journal.now number }
{
    let front = &journal[..journal.len().min(number as usize)];
    clock_count(front).saturating_sub(1)
}

/// How often the clock was set.
fn clock_count(entries: &[Entry]) -> usize
    ensures { result ≡ count_by (λ e. is_clock e.op) entries.now }
{
    let mut count = 0;
    for entry in entries {
        if is_clock(&entry.op) {
            count += 1;
        }
    }
    count
}

fn is_clock(op: &Op) -> bool
    ensures { result ≡ is_clock op.now }
{
    matches!(op, Op::Clock(_))
}

/// The tasks of the phase at a place, or none.
fn phase_tasks(script: &Script, place: usize) -> &[Task]
    ensures { result.now ≡ phase_tasks (slice_get script.now.phases place) }
{
    match script.phases.get(place) {
        Some(phase) => phase.tasks.members(),
        None => Default::default(),
    }
}

fn worker_at(workers: &[Worker], seat: u32) -> Option<&Worker>
    ensures { option_copied result ≡ worker_at seat workers.now }
{
    match workers {
        [] => None,
        [worker, others @ ..] => {
            if worker.seat == seat {
                Some(worker)
            } else {
                worker_at(others, seat)
            }
        }
    }
}

/// The lines of those of a worker's tasks of which the operation may be one.
fn worker_lines(
    alloc: Global,
    tasks: &[Task],
    op: &Op,
    worker: Option<&Worker>,
) -> Result<Vec<u64>, NoMemory>
    ensures { IfOk result
        (λ lines. lines.items ≡ worker_lines tasks.now op.now (option_copied worker.entry)) }
{
    match worker {
        Some(worker) => task_lines(alloc, tasks, op, worker.tasks.members()),
        None => Ok(Vec::new(alloc)),
    }
}

fn task_lines(alloc: Global, tasks: &[Task], op: &Op, places: &[u64]) -> Result<Vec<u64>, NoMemory>
    ensures { IfOk result (λ lines. lines.items
        ≡ flat_map (λ place. line_if op.now (slice_get tasks.now place)) places.now) }
{
    let mut lines = Vec::new(alloc);
    for place in places {
        add_line(&mut lines, op, task_at(tasks, *place))?;
    }
    Ok(lines)
}

fn task_at(tasks: &[Task], place: u64) -> Option<&Task>
    ensures { option_copied result ≡ slice_get tasks.now place }
{
    tasks.get(place as usize)
}

fn add_line(lines: &mut Vec<u64>, op: &Op, task: Option<&Task>) -> Result<(), NoMemory>
    ensures { OnOk result
        (lines.new.items ≡ lines.old.items ++ line_if op.now (option_copied task.entry)) }
{
    match task {
        Some(task) if may_be_of(&task.work, op) => {
            lines.push(u64::from(task.line))?;
            Ok(())
        }
        _ => Ok(()),
    }
}

/// Whether it may be an operation of such a task.
fn may_be_of(work: &Work, op: &Op) -> bool
    ensures { result ≡ may_be_of work.now op.now }
{
    match work {
        Work::Sync(_) => is_of_sync(op),
        Work::Query { .. } => !is_of_sync(op),
        Work::Upload(..) | Work::Compact(_) | Work::Clean(_) => true,
    }
}

fn is_of_sync(op: &Op) -> bool
    ensures { result ≡ is_of_sync op.now }
{
    matches!(op, Op::RootPage(..) | Op::Get(Key::Mark(_) | Key::Meta(_)))
}

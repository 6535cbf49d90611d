//! A script is run over a world: by the caller itself, in the order of the lines, or with the workers of a phase beside each other in threads.

ghost use Rattle.std.specs.Prelude.{◌≡◌, Ok, Err, MatchBool};
ghost use Rattle.world_core.specs.Worlds.{IsJournal, IsOfBytes};
ghost use Rattle.script_core.specs.Lawful.{IsLawfulScript};
ghost use Rattle.call_verdicts.specs.script_running.specs.Shelves.{setting_by};
ghost use Rattle.replay_cli.specs.Endings.{EndsReport};
ghost use Rattle.replay_cli.specs.Ways.{HasRun, MayRun, beside, in_line};

use crate::telling::Beside;
use base::NoMemory;
use bucket_core::Bucket;
use call_verdicts::Verdict;
use call_verdicts::report_lines::{Lines, LinesBy, SeriesWay, put_breach_of};
use call_verdicts::script_running::{Broken, Lent, RunEnd, ShelfBlock, run_beside};
use line_running::do_in_line;
use phase_runner::Gate;
use run_notes::Finished;
use script_core::Script;
use std::alloc::Global;
use std::sync::Wait;
use std::thread::Threads;
use world_core::{Entry, World};

/// Does the tasks one after another, in the order of their lines. The world comes with the note of its operations.
pub(crate) fn run_in_line<B: Bucket, G: Gate>(
    alloc: Global,
    script: &Script,
    shelf: &[ShelfBlock],
    world: World<B>,
    gate: &G,
) -> (Verdict, Finished<B>)
    requires { MayRun B.told script.now shelf.now world }
    ensures { HasRun in_line B.told (setting_by script.now shelf.now) world
        result.0 result.1.world result.1.note }
{
    let (came, report, hand) = do_in_line(alloc, script, shelf, world, gate);
    let world = hand.world();
    let journal = world.journal();
    let verdict = verdict_of(alloc, script, journal.entries(), came, report);
    (verdict, Finished::of_hand(hand))
}

/// With what the workers of a phase run beside each other: threads, and the gate before each operation.
#[derive(Drop)]
pub struct Crew<'a, T, G> {
    pub threads: &'a T,
    pub gate: &'a G,
}

/// Does the phases one after another, the workers of each beside each other in threads. The world comes with the note of its
/// operations, unless nothing was begun.
pub(crate) fn run_with_threads<B: Bucket + Send, G: Gate + Sync, T: Threads + Wait + Sync>(
    crew: &Crew<'_, T, G>,
    alloc: Global,
    script: &Script,
    shelf: &[ShelfBlock],
    world: World<B>,
) -> (Verdict, Finished<B>)
    requires { MayRun B.told script.now shelf.now world }
    ensures { HasRun beside B.told (setting_by script.now shelf.now) world
        result.0 result.1.world result.1.note }
{
    let rt = crew.threads;
    run_telling(crew, alloc, script, shelf, world, Beside { rt })
}

/// Does the phases with their workers in threads, and puts the lines of answers' series in this way.
fn run_telling<'a, B: Bucket + Send, G: Gate + Sync, T: Threads + Wait + Sync, W: SeriesWay + Drop>(
    crew: &Crew<'_, T, G>,
    alloc: Global,
    script: &'a Script,
    shelf: &'a [ShelfBlock],
    world: World<B>,
    way: W,
) -> (Verdict, Finished<B>)
    requires may { MayRun B.told script.now shelf.now world }
    requires way { W.can_put way }
    ensures { HasRun beside B.told (setting_by script.now shelf.now) world
        result.0 result.1.world result.1.note }
{
    let lent = Lent { script, shelf };
    let report = LinesBy::new(alloc, way);
    match run_beside(crew.threads, alloc, &lent, world, crew.gate, report) {
        Ok((end, closed)) => {
            let RunEnd { report, came } = end;
            let came = with_wanted(came, closed.wanted_memory());
            let world = closed.world();
            let journal = world.journal();
            let verdict = verdict_of(alloc, script, journal.entries(), came, report.lines);
            (verdict, Finished::of_closed(closed))
        }
        Err(world) => (Verdict::NoMemory, Finished::unbegun(world)),
    }
}

/// What is told of a run that came to this: want of memory, where that was met in an operation.
fn with_wanted(came: Result<(), Broken>, wanted: bool) -> Result<(), Broken>
    ensures { MatchBool wanted (result ≡ Err Broken.NoMemory) (result ≡ came) }
{
    if wanted { Err(Broken::NoMemory) } else { came }
}

/// What a run comes to that left this journal, by what broke it off.
fn verdict_of(
    alloc: Global,
    script: &Script,
    journal: &[Entry],
    came: Result<(), Broken>,
    report: Lines,
) -> Verdict
    requires lawful { IsLawfulScript script.now }
    requires kept { IsJournal script.now.rules.tick.ms journal.now }
    requires bytes { IsOfBytes journal.now }
    ensures whole { came ≡ Ok tt → EndsReport script.now journal.now report result }
    ensures full { came ≡ Err Broken.Full → result ≡ Verdict.Full report.text }
    ensures none { came ≡ Err Broken.NoMemory → result ≡ Verdict.NoMemory }
{
    match came {
        Ok(()) => whole_report(alloc, script, journal, report),
        Err(Broken::Full) => Verdict::Full(report.text),
        Err(Broken::NoMemory) => Verdict::NoMemory,
    }
}

/// The report of a run that came to its end, with the line of the journal's breach behind the others.
fn whole_report(alloc: Global, script: &Script, journal: &[Entry], report: Lines) -> Verdict
    requires lawful { IsLawfulScript script.now }
    requires kept { IsJournal script.now.rules.tick.ms journal.now }
    requires bytes { IsOfBytes journal.now }
    ensures { EndsReport script.now journal.now report result }
{
    let Lines { mut text, as_asked } = report;
    match put_breach_of(alloc, script, journal, &mut text) {
        Ok(()) => Verdict::Report(text, as_asked),
        Err(NoMemory) => Verdict::NoMemory,
    }
}

//! A script's phases one after another, the workers of each beside each other in threads.

ghost use Rattle.std.specs.Prelude.{◌≡◌, ◌+◌, ◌<◌, ◌||◌, List, [], Ok, IfOk, IfErr, OnOk, false, slice_get, take};
ghost use Rattle.bucket_core.specs.Asking.{Call};
ghost use Rattle.world_core.specs.Asking.{IsAllAsked};
ghost use Rattle.world_core.specs.Worlds.{failed_count};
ghost use Rattle.script_core.specs.Lawful.{IsLawfulScript};
ghost use Rattle.script_core.specs.Workers.{seats_before};
ghost use Rattle.moment_core.specs.Limits.{moment_limit};
ghost use Rattle.script_running.specs.Shelves.{AreAllAtHand, setting_by};
ghost use Rattle.script_running.specs.Beside.{HasRunBeside};
ghost use Rattle.script_running.specs.Reporting.{HasToldFirst};
ghost use Rattle.script_running.specs.Going.{HasCome, HasReached, IsClockSet};
ghost use Rattle.script_running.specs.Outcomes.{Outcome};
ghost use Rattle.script_running.specs.Tasks.{is_full_came};
ghost use Rattle.world_turn.specs.Closing.{AllJoined};
ghost use Rattle.world_turn.specs.Passes.{table_of, view_of};
ghost use Rattle.world_turn.specs.Turns.{IsLater, IsSame};

use crate::comparing::Beside;
use crate::gathering::{Staffed, gather, jobs_of};
use crate::{Broken, Means, Progress, Report, ShelfBlock, selector_texts};
use base::NoMemory;
use bucket_core::Bucket;
use phase_runner::{Gate, run_phase};
use script_core::{Phase, Script};
use std::alloc::Global;
use std::sync::Wait;
use std::thread::Threads;
use world_core::{Acted, Op, World};
use world_turn::{Closed, Pass, Shared};

/// A script, and what was read of the shelf for its blocks.
#[derive(Clone, Copy)]
pub struct Lent<'a> {
    pub script: &'a Script,
    pub shelf: &'a [ShelfBlock],
}

/// How a run came out.
#[derive(Drop)]
pub struct RunEnd<P> {
    /// The report of the finished phases.
    pub report: P,
    /// What broke the run off, if anything did.
    pub came: Result<(), Broken>,
}

/// With what all phases of a run are done.
#[derive(Drop)]
struct Running<'a, B: Bucket, G, R> {
    rt: &'a R,
    gate: &'a G,
    script: &'a Script,
    means: &'a Means<'a>,
    shared: &'a Shared<B>,
}

/// Runs a script over a world: each phase's workers beside each other, and the phases one after another. No phase is begun after one that
/// broke off. For want of memory nothing may be begun. The gate is told how far the run is.
///
/// The tasks of a phase are added to the report when all its workers came to their ends, before the next phase is begun.
pub fn run_beside<B: Bucket + Send, G: Gate + Sync, P: Report + Drop, R: Threads + Wait + Sync>(
    rt: &R,
    alloc: Global,
    lent: &Lent<'_>,
    world: World<B>,
    gate: &G,
    report: P,
) -> Result<(RunEnd<P>, Closed<B>), World<B>>
    requires lawful { IsLawfulScript lent.now.script.now }
    requires at_hand { AreAllAtHand lent.now.script.now lent.now.shelf.now }
    requires fresh { world.journal ≡ [] }
    requires tick { world.tick ≡ lent.now.script.now.rules.tick.ms }
    requires untold { P.tells report lent.now.script.now [] [] }

    // The report tells of the tasks of some first phases, or for want of memory one did: just of those that came out so.
    ensures ran { IfOk result (λ run. (outcomes : List Outcome)
        × HasRunBeside (setting_by lent.now.script.now lent.now.shelf.now)
        run.1.world.journal outcomes run.0.came
        × HasToldFirst P.tells lent.now.script.now run.0.report outcomes run.0.came) }
    ensures tick { IfOk result (λ run. run.1.world.tick ≡ world.tick) }

    // The full journal is told just where a pass of the run met it. So want of memory is told only where none did.
    ensures refused { IfOk result
        (λ run. (view_of run.1.root.value).refused ≡ is_full_came run.0.came) }

    // The bucket has failed no more often than before, unless the journal shows it.
    ensures unfailed { IfOk result (λ run. failed_count run.1.world.journal ≡ 0
        → (B.told run.1.world.bucket).faults ≡ (B.told world.bucket).faults) }

    // A run that came to its end wanted no memory for an operation.
    ensures unwanted { IfOk result (λ run. run.0.came ≡ Ok tt
        → (view_of run.1.root.value).wanted ≡ false) }

    // Unless memory was wanted for one, all that the bucket was asked is journaled if it was before.
    ensures all { IfOk result (λ run. (view_of run.1.root.value).wanted ≡ false
        → (before : List Call) → IsAllAsked B.told before world
        → IsAllAsked B.told before run.1.world) }

    // Where nothing was begun, the world is as it was.
    ensures unbegun { IfErr result (λ same. same ≡ world) }
{
    let script = lent.script;
    let Ok(mut progress) = Progress::new(alloc, script, report) else {
        return Err(world);
    };
    let Ok(texts) = selector_texts(alloc, &script.selectors) else {
        return Err(world);
    };
    let means = Means::lend(alloc, script, lent.shelf, texts.members());
    match Shared::open(alloc, world) {
        Ok((shared, root)) => {
            let (came, root) = run_phases(
                &Running {
                    rt,
                    gate,
                    script,
                    means: &means,
                    shared: &shared,
                },
                root,
                &mut progress,
            );
            gate.ends();
            let closed = shared.close(root);
            // what every world keeps, as this one does
            let kept = closed.world();
            let _after = kept.journal();
            let report = progress.report;
            Ok((RunEnd { report, came }, closed))
        }
        Err((NoMemory, world)) => Err(world),
    }
}

/// Does the phases one after another, up to one that breaks off.
#[tactic(auto, using(crate::proofs::Refused::on_tells, crate::proofs::Refused::off_tells, crate::proofs::Refused::all_tell))]
fn run_phases<B: Bucket + Send, G: Gate + Sync, P: Report, R: Threads + Wait + Sync>(
    run: &Running<'_, B, G, R>,
    root: Pass,
    progress: &mut Progress<P>,
) -> (Result<(), Broken>, Pass)
    requires lawful { IsLawfulScript run.now.script.now }
    requires lent { run.now.means.now.script ≡ run.now.script.now }
    requires own { (table_of root ≡ run.now.shared.now.table.shared.table_id) × (root.seat ≡ 0) }
    requires seats { root.splits ≡ seats_before run.now.script.now 0 }
    requires unwanted { (view_of root).wanted ≡ false }
    requires all { AllJoined (view_of root) }
    requires reached { HasReached P.tells (setting_by run.now.script.now run.now.means.now.shelf)
        (view_of root) [] progress.old }
    ensures pass { (table_of result.1 ≡ table_of root) × (result.1.seat ≡ 0) }
    ensures tick { (view_of result.1).tick ≡ (view_of root).tick }
    ensures refused { (view_of result.1).refused
        ≡ ((view_of root).refused || is_full_came result.0) }
    ensures unwanted { result.0 ≡ Ok tt → (view_of result.1).wanted ≡ false }
    ensures all { AllJoined (view_of result.1) }
    ensures came { HasCome P.tells (setting_by run.now.script.now run.now.means.now.shelf)
        (view_of result.1) run.now.script.now.phases progress.new result.0 }
{
    let mut root = root;
    for (place, phase) in run.script.phases.members().iter().enumerate() {
        run.gate.begins(place, run.script.phases.len());
        let (came, next) = phase_beside(run, root, place, phase, progress);
        root = next;
        if let Err(broken) = came {
            return (Err(broken), root);
        }
    }
    (Ok(()), root)
}

/// Sets the clock, and has the phase's workers do their tasks.
fn phase_beside<B: Bucket + Send, G: Gate + Sync, P: Report, R: Threads + Wait + Sync>(
    run: &Running<'_, B, G, R>,
    root: Pass,
    place: usize,
    phase: &Phase,
    progress: &mut Progress<P>,
) -> (Result<(), Broken>, Pass)
    requires lawful { IsLawfulScript run.now.script.now }
    requires lent { run.now.means.now.script ≡ run.now.script.now }
    requires at { slice_get run.now.script.now.phases place ≡ Some phase.now }
    requires own { (table_of root ≡ run.now.shared.now.table.shared.table_id) × (root.seat ≡ 0) }
    requires seats { root.splits ≡ seats_before run.now.script.now place }
    requires unwanted { (view_of root).wanted ≡ false }
    requires all { AllJoined (view_of root) }
    requires reached { HasReached P.tells (setting_by run.now.script.now run.now.means.now.shelf)
        (view_of root) (take place run.now.script.now.phases) progress.old }
    ensures pass { (table_of result.1 ≡ table_of root) × (result.1.seat ≡ 0) }
    ensures tick { (view_of result.1).tick ≡ (view_of root).tick }
    ensures refused { (view_of result.1).refused
        ≡ ((view_of root).refused || is_full_came result.0) }
    ensures unwanted { result.0 ≡ Ok tt → (view_of result.1).wanted ≡ false }
    ensures seats { OnOk result.0
        (result.1.splits ≡ seats_before run.now.script.now (place + 1)) }
    ensures all { AllJoined (view_of result.1) }
    ensures came { HasCome P.tells (setting_by run.now.script.now run.now.means.now.shelf)
        (view_of result.1) (take (place + 1) run.now.script.now.phases) progress.new result.0 }
{
    let alloc = run.means.alloc();
    let Ok(staff) = run.script.workers_after(alloc, place, root.splits()) else {
        return (Err(Broken::NoMemory), root);
    };
    let workers = staff.members();
    let Ok(jobs) = jobs_of(run.means, place, phase, workers, &mut progress.sights) else {
        return (Err(Broken::NoMemory), root);
    };
    let (begun, root) = begin_phase(run.rt, run.shared, root, phase);
    if let Err(broken) = begun {
        return (Err(broken), root);
    }
    run.gate.moved(0);
    let end = run_phase(run.rt, alloc, run.shared, root, jobs, run.gate);
    if end.memory {
        return (Err(Broken::NoMemory), end.root);
    }
    let staffed = Staffed {
        script: run.script,
        tasks: phase.tasks.members(),
        workers,
    };
    let came = gather(alloc, &staffed, end.ends, progress, &Beside { rt: run.rt });
    (came, end.root)
}

/// Sets the clock to the moment of the phase.
fn begin_phase<B: Bucket, R: Wait>(
    rt: &R,
    shared: &Shared<B>,
    root: Pass,
    phase: &Phase,
) -> (Result<(), Broken>, Pass)
    requires own { table_of root ≡ shared.now.table.shared.table_id }
    requires moment { phase.now.moment.ms < moment_limit }
    ensures pass { (table_of result.1 ≡ table_of root) × (result.1.seat ≡ root.seat)
        × (result.1.splits ≡ root.splits) }
    ensures clock { IsClockSet phase.now (view_of root) (view_of result.1) result.0 }
    ensures same { IsSame (view_of root) (view_of result.1) }
    ensures later { IsLater (view_of root) (view_of result.1) }
{
    let (acted, root) = shared.act(rt, root, Op::Clock(phase.moment));
    let begun = match acted {
        Acted::Done(_) => Ok(()),
        Acted::Full => Err(Broken::Full),
        Acted::NoMemory => Err(Broken::NoMemory),
    };
    (begun, root)
}

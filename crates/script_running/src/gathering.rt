//! The workers of a phase, sent with what their gateways see, and their ends, laid together in the order of the lines.

ghost use Rattle.std.specs.Prelude.{◌≡◌, ◌<◌, ◌++◌, [], ◌∷◌, ℕ, List, Err, IfOk, IfSome, OnOk, length, map};
ghost use Rattle.std.specs.List.{All, AllZip, zip};
ghost use Rattle.lifecycle_core.specs.Holdings.{Holdings};
ghost use Rattle.lifecycle_core.specs.Setting.{Setting};
ghost use Rattle.script_running.specs.Beside.{AreSeen};
ghost use Rattle.script_running.specs.Ended.{IsPostOf};
ghost use Rattle.script_running.specs.Gathering.{HaveOwnGateways, AreInTurn, AreJoined, AreSeenBeside, AreTakenIn, AreTold, HasGathered, HaveCome, IsSeen, IsTaken, IsWorse, Joined, back_of, paired_with, parts_at, turn_of};
ghost use Rattle.script_running.specs.Reporting.{AddsTo};
ghost use Rattle.script_running.specs.Workers.{IsAtWork};
ghost use Rattle.script_running.specs.Outcomes.{Outcome};

use crate::{Broken, Means, Part, Progress, Report, Sight, WorkerEnd, WorkerJob, outcome_of};
use base::{NoMemory, TryCopy};
use querier::CompareWay;
use script_core::{Phase, Script, Task, Worker};
use std::alloc::Global;
use std::mem;

/// A phase of a script: its tasks, and the workers who do them.
#[derive(Clone, Copy)]
pub struct Staffed<'a> {
    pub script: &'a Script,
    pub tasks: &'a [Task],
    pub workers: &'a [Worker],
}

/// A job for each worker of the phase, which takes what its gateway sees.
pub fn jobs_of<'a>(
    means: &'a Means<'a>,
    place: usize,
    phase: &'a Phase,
    workers: &[Worker],
    sights: &mut Vec<Sight>,
) -> Result<Vec<WorkerJob<'a>>, NoMemory>
    requires work { All (λ worker. IsAtWork means.now.script place worker phase.now.tasks)
        workers.now }
    requires gateways { All
        (λ worker. IfSome worker.gateway (λ gateway. gateway < length sights.old.items))
        workers.now }
    requires apart { HaveOwnGateways workers.now }
    ensures each { length sights.new.items ≡ length sights.old.items }
    ensures sent { (held : Holdings) → AreSeen held sights.old.items
        → IfOk result (λ jobs. AllZip (IsPostOf means.now place held) workers.now jobs.items) }
    ensures left { (held : Holdings) → AreSeen held sights.old.items
        → OnOk result (AreSeenBeside held workers.now sights.new.items) }
{
    let mut jobs = Vec::with_capacity(means.alloc(), workers.len())?;
    for worker in workers {
        let own = worker.copy()?;
        let sight = take_sight(worker.gateway, sights);
        jobs.push_reserved(WorkerJob::new(means, place, phase, own, sight));
    }
    Ok(jobs)
}

/// Takes what a worker's gateway sees.
fn take_sight(gateway: Option<u32>, sights: &mut Vec<Sight>) -> Sight
    requires { IfSome gateway (λ gateway. gateway < length sights.old.items) }
    ensures { IsTaken gateway result sights.old.items sights.new.items }
{
    match gateway {
        Some(gateway) => mem::replace(&mut sights[gateway as usize], Sight::new()),
        None => Sight::new(),
    }
}

/// Where no worker was broken off, takes what each worker's gateway sees from now on, and adds to the report what the phase's tasks came to.
///
/// It takes memory only where no worker met the full journal, so that this is what is told of such a phase.
pub fn gather<P: Report, W: CompareWay>(
    alloc: Global,
    phase: &Staffed<'_>,
    ends: Vec<WorkerEnd>,
    progress: &mut Progress<P>,
    way: &W,
) -> Result<(), Broken>
    requires way { W.can_compare way.now }
    requires many { length phase.now.workers.now ≡ length ends.items }
    requires gateways { All (λ worker. IfSome worker.gateway
        (λ gateway. gateway < length progress.old.sights.items)) phase.now.workers.now }
    requires places { All (λ worker. All (λ place. place < length phase.now.tasks.now) worker.tasks)
        phase.now.workers.now }
    ensures each { length progress.new.sights.items ≡ length progress.old.sights.items }
    ensures came { HaveCome ends.items result }
    ensures gathers { (setting : Setting) (one : Joined)
        → AreJoined setting phase.now ends.items progress.old.sights.items one
        → OnOk result (HasGathered P.tells setting one progress.old progress.new) }

    // The full journal leaves the report as it was.
    ensures unreported { result ≡ Err Broken.Full → progress.new.report ≡ progress.old.report }
{
    broken_off(&ends)?;
    let Ok(backs) = in_turn(alloc, phase.workers, ends) else {
        return Err(Broken::NoMemory);
    };
    let Ok(lists) = take_in(alloc, phase.tasks.len(), backs, &mut progress.sights) else {
        return Err(Broken::NoMemory);
    };
    match tell(alloc, phase, lists, &mut progress.report, way) {
        Ok(()) => Ok(()),
        Err(NoMemory) => Err(Broken::NoMemory),
    }
}

/// What broke a phase off: the full journal, if any worker met it.
fn broken_off(ends: &[WorkerEnd]) -> Result<(), Broken>
    ensures { HaveCome ends.now result }
{
    let mut came = Ok(());
    for end in ends {
        came = worse(came, end.came);
    }
    came
}

fn worse(came: Result<(), Broken>, other: Result<(), Broken>) -> Result<(), Broken>
    ensures { IsWorse came other result }
{
    match (came, other) {
        (Err(Broken::Full), _) | (_, Err(Broken::Full)) => Err(Broken::Full),
        (Err(Broken::NoMemory), _) | (_, Err(Broken::NoMemory)) => Err(Broken::NoMemory),
        (Ok(()), Ok(())) => Ok(()),
    }
}

/// A worker, and what it came back with.
#[derive(Drop)]
pub(crate) struct CameBack<'a> {
    pub worker: &'a Worker,
    pub end: WorkerEnd,
}

/// What workers came to in one task.
#[derive(Drop)]
pub(crate) struct TaskParts {
    pub parts: Vec<Part>,
}

/// The workers with what they came back with: those of no gateway, then those of gateways in the order of these.
fn in_turn<'a>(
    alloc: Global,
    workers: &'a [Worker],
    ends: Vec<WorkerEnd>,
) -> Result<Vec<CameBack<'a>>, NoMemory>
    requires { length workers.now ≡ length ends.items }
    ensures { IfOk result (λ backs. AreInTurn workers.now ends.items (map back_of backs.items)) }
{
    let mut backs = Vec::with_capacity(alloc, workers.len())?;
    let mut number = 0;
    for end in ends {
        let worker = &workers[number];
        backs.push_reserved(CameBack { worker, end });
        number += 1;
    }
    backs.sort_by_key(|back| turn_of(back))?;
    Ok(backs)
}

/// The place of a worker among those who come back.
fn turn_of(back: &CameBack<'_>) -> u64
    ensures { result ≡ turn_of (back_of back.now) }
{
    match back.worker.gateway {
        Some(gateway) => gateway as u64 + 1,
        None => 0,
    }
}

/// Takes in what each worker came back with: what its gateway sees, and its parts of so many tasks, at the places of these.
fn take_in(
    alloc: Global,
    tasks: usize,
    backs: Vec<CameBack<'_>>,
    sights: &mut Vec<Sight>,
) -> Result<Vec<TaskParts>, NoMemory>
    requires gateways { All (λ back. IfSome (back_of back).0.gateway
        (λ gateway. gateway < length sights.old.items)) backs.items }
    requires places { All (λ back. All (λ place. place < tasks) (back_of back).0.tasks)
        backs.items }
    ensures each { length sights.new.items ≡ length sights.old.items }
    ensures wide { IfOk result (λ lists. length lists.items ≡ tasks) }
    ensures taken { IfOk result
        (λ lists. AreTakenIn (map back_of backs.entry.items) sights.old.items
        sights.new.items lists.items) }
{
    let mut lists = no_parts(alloc, tasks)?;
    for back in backs {
        let CameBack { worker, end } = back;
        let WorkerEnd {
            parts,
            came: _,
            sight,
        } = end;
        see(worker.gateway, sight, sights);
        lay(worker.tasks.members(), parts, &mut lists)?;
    }
    Ok(lists)
}

/// No parts yet, for so many tasks.
fn no_parts(alloc: Global, tasks: usize) -> Result<Vec<TaskParts>, NoMemory>
    ensures wide { IfOk result (λ lists. length lists.items ≡ tasks) }
    ensures none { IfOk result (λ lists. All (λ own. own.parts.items ≡ []) lists.items) }
{
    let mut lists = Vec::with_capacity(alloc, tasks)?;
    for _ in 0..tasks {
        lists.push_reserved(TaskParts {
            parts: Vec::new(alloc),
        });
    }
    Ok(lists)
}

/// Keeps what a worker's gateway sees.
fn see(gateway: Option<u32>, sight: Sight, sights: &mut Vec<Sight>)
    requires { IfSome gateway (λ gateway. gateway < length sights.old.items) }
    ensures each { length sights.new.items ≡ length sights.old.items }
    ensures sees { IsSeen gateway sight sights.old.items sights.new.items }
{
    if let Some(gateway) = gateway {
        sights[gateway as usize] = sight;
    }
}

/// Adds a worker's parts to those at the places of their tasks, as far as there are any.
fn lay(places: &[u64], parts: Vec<Part>, lists: &mut Vec<TaskParts>) -> Result<(), NoMemory>
    requires { All (λ place. place < length lists.old.items) places.now }
    ensures wide { length lists.new.items ≡ length lists.old.items }
    ensures laid { OnOk result ((place : ℕ) → parts_at lists.new.items place
        ≡ parts_at lists.old.items place ++ paired_with place (zip places.now parts.items)) }
{
    let mut number = 0;
    for part in parts {
        if number >= places.len() {
            return Ok(());
        }
        add(&mut lists[places[number] as usize], part)?;
        number += 1;
    }
    Ok(())
}

fn add(own: &mut TaskParts, part: Part) -> Result<(), NoMemory>
    ensures { OnOk result (own.new.parts.items ≡ own.old.parts.items ++ part ∷ []) }
{
    own.parts.push(part)?;
    Ok(())
}

/// Adds to the report how the tasks came out, in their order, by the parts of those who did them. For want of memory a part of them may
/// have been added.
fn tell<P: Report, W: CompareWay>(
    alloc: Global,
    phase: &Staffed<'_>,
    lists: Vec<TaskParts>,
    report: &mut P,
    way: &W,
) -> Result<(), NoMemory>
    requires way { W.can_compare way.now }
    requires many { length lists.items ≡ length phase.now.tasks.now }
    ensures { OnOk result ((own : List Outcome)
        × AreTold (parts_at lists.items) 0 phase.now.tasks.now own
        × AddsTo P.tells phase.now.script.now phase.now.tasks.now own report.old report.new) }
{
    let script = phase.script;
    let tasks = phase.tasks;
    let mut place = 0;
    for own in lists {
        let TaskParts { parts } = own;
        let task = &tasks[place];
        let outcome = outcome_of(alloc, parts, way)?;
        report.add(script, task, &outcome)?;
        place += 1;
    }
    Ok(())
}

//! A worker of a phase: it does its tasks one after another.

ghost use Rattle.std.specs.Prelude.{◌≡◌, ◌<◌, [], Err, length};
ghost use Rattle.std.specs.List.{All};
ghost use Rattle.world_core.specs.Turning.{Turned};
ghost use Rattle.script_core.specs.Lawful.{IsLawfulScript};
ghost use Rattle.lifecycle_core.specs.Conducts.{TasksAt, Who};
ghost use Rattle.lifecycle_core.specs.Holdings.{Holding};
ghost use Rattle.script_running.specs.Lending.{setting_in};
ghost use Rattle.script_running.specs.Sights.{Sees};
ghost use Rattle.script_running.specs.Tasks.{Allows, is_full_came, is_short_came};
ghost use Rattle.script_running.specs.Workers.{IsAtWork, HasWorked, OwnRun};

use crate::{Broken, Means, Part, Sight, run_task};
use phase_runner::Job;
use script_core::{Phase, Task, Worker};
use std::alloc::Global;
use std::marker::Model;
use world_core::Hand;

/// A worker of a phase and what its gateway sees.
#[derive(Drop)]
pub struct WorkerJob<'a> {
    means: &'a Means<'a>,
    tasks: &'a [Task],
    phase: usize,
    worker: Worker,
    sight: Sight,
}

impl<'a> Model for WorkerJob<'a> {
    ghost use Rattle.script_running.specs.Workers.{IsAtWork, Post};

    ghost Value = { Post };

    ghost view = { λ job. record {
      loan = job.means.now;
      phase = job.phase;
      worker = job.worker;
      sight = job.sight;
    } };

    ghost invariant = { λ job. IsAtWork job.means.now.script job.phase job.worker job.tasks.now };
}

/// What a worker leaves.
#[derive(Drop)]
pub struct WorkerEnd {
    /// What it came to in those of its tasks that came to their ends, in the order of their lines.
    pub parts: Vec<Part>,
    /// What broke it off, if anything did.
    pub came: Result<(), Broken>,
    /// What its gateway sees from now on.
    pub sight: Sight,
}

impl<'a> WorkerJob<'a> {
    /// The job of a worker of the phase at a place.
    pub fn new(
        means: &'a Means<'a>,
        place: usize,
        phase: &'a Phase,
        worker: Worker,
        sight: Sight,
    ) -> WorkerJob<'a>
        requires work { IsAtWork means.now.script place worker phase.now.tasks }
        ensures { (result.loan ≡ means.now) × (result.phase ≡ place) × (result.worker ≡ worker)
            × (result.sight ≡ sight) }
    {
        WorkerJob {
            means,
            tasks: phase.tasks.members(),
            phase: place,
            worker,
            sight,
        }
    }
}

impl<'a> Job for WorkerJob<'a> {
    ghost use Rattle.script_running.specs.Workers.{MayWork};
    ghost use Rattle.script_running.specs.Tasks.{is_full_came, is_short_came};

    type End = WorkerEnd;

    ghost may = { MayWork };

    ghost met_full = { λ end. is_full_came end.came };

    ghost wanted = { λ end. is_short_came end.came };

    /// Uploads of inline blocks are as heavy as their samples. All else is heavy.
    fn weight(&self) -> u64 {
        let mut sum = 0u64;
        for place in self.worker.tasks.members() {
            let own = match self.tasks.get(*place as usize) {
                Some(task) => self.means.weight(&task.work),
                None => 0,
            };
            sum = sum.saturating_add(own);
        }
        sum
    }

    fn run<H: Hand>(self, hand: &mut H) -> WorkerEnd {
        let WorkerJob {
            means,
            tasks,
            phase: _,
            worker,
            sight,
        } = self;
        let places = worker.tasks.members();
        do_tasks(means, worker.gateway, tasks, places, sight, hand)
    }
}

/// Nothing was done, for want of memory.
fn wanting(alloc: Global, sight: Sight) -> WorkerEnd
    ensures { (result.parts.items ≡ []) × (result.came ≡ Err Broken.NoMemory)
        × (result.sight ≡ sight) }
{
    WorkerEnd {
        parts: Vec::new(alloc),
        came: Err(Broken::NoMemory),
        sight,
    }
}

/// Does a worker's parts of the tasks at these places one after another, until one of them is broken off. It takes its memory
/// for what they come to first.
fn do_tasks<H: Hand>(
    means: &Means<'_>,
    gateway: Option<u32>,
    tasks: &[Task],
    places: &[u64],
    sight: Sight,
    hand: &mut H,
) -> WorkerEnd
    requires lawful { IsLawfulScript means.now.script }
    requires tasks { All (λ task. Allows means.now.script task.work) tasks.now }
    requires places { All (λ place. place < length tasks.now) places.now }
    ensures worked { (who : Who) (held : Holding) → who.gateway ≡ gateway → Sees held sight
        → HasWorked (TasksAt tasks.now places.now) (OwnRun (setting_in means.now) who held)
        (H.told hand.old).seat (H.told hand.old).entries (H.told hand.new).entries result }
    ensures hand { Turned H.told H.keeps hand.old hand.new (is_full_came result.came)
        (is_short_came result.came) }
{
    let mut sight = sight;
    let Ok(mut parts) = Vec::with_capacity(means.alloc(), places.len()) else {
        return wanting(means.alloc(), sight);
    };
    for number in 0..places.len() {
        let task = &tasks[places[number] as usize];
        match run_task(means, gateway, &task.work, &mut sight, hand) {
            Ok(part) => parts.push_reserved(part),
            Err(broken) => {
                return WorkerEnd {
                    parts,
                    came: Err(broken),
                    sight,
                };
            }
        }
    }
    WorkerEnd {
        parts,
        came: Ok(()),
        sight,
    }
}

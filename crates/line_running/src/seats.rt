//! Whose seat does a task. A run in line has one hand for all workers, but its journal names their seats, so that it is
//! also a journal of workers beside each other and the same laws speak of it.

ghost use Rattle.std.specs.Prelude.{◌≡◌, ◌-◌, ◌==◌, ◌^◌, min, length, IfOk};
ghost use Rattle.base.specs.Lists.{is_one_of};
ghost use Rattle.script_core.specs.Workers.{seats_before, workers_of};
ghost use Rattle.report_lines.specs.lifecycle_core.specs.InLine.{seat_of, serves};

use base::NoMemory;
use script_core::{Hand, Script, Worker, WorkerList};
use std::alloc::Global;

/// The seats of one phase's workers. A phase has at most 64, so a seat is looked up in their list.
#[derive(Drop)]
pub(crate) struct Seats {
    pub workers: WorkerList,
}

impl Seats {
    /// The seats of the phase at a place, before which so many workers have one.
    pub(crate) fn new(
        alloc: Global,
        script: &Script,
        place: usize,
        before: u32,
    ) -> Result<Seats, NoMemory>
        requires { before ≡ seats_before script.now place }
        ensures { IfOk result (λ seats. seats.workers ≡ workers_of script.now place) }
    {
        Ok(Seats {
            workers: script.workers_after(alloc, place, before)?,
        })
    }

    /// How many workers the phase has.
    pub(crate) fn count(&self) -> u32
        ensures { result ≡ min (length self.now.workers) (2 ^ 32 - 1) }
    {
        u32::try_from(self.workers.len()).unwrap_or(u32::MAX)
    }

    /// The seat of the worker that does the hand's tasks.
    pub(crate) fn seat_of(&self, hand: Hand) -> u32
        ensures { result ≡ seat_of self.now.workers hand }
    {
        seat_among(self.workers.members(), hand)
    }
}

/// The seat of the worker that does the hand's tasks, and 0 where none does.
fn seat_among(workers: &[Worker], hand: Hand) -> u32
    ensures { result ≡ seat_of workers.now hand }
{
    match workers {
        [] => 0,
        [worker, others @ ..] => {
            if serves(hand, worker) {
                worker.seat
            } else {
                seat_among(others, hand)
            }
        }
    }
}

fn serves(hand: Hand, worker: &Worker) -> bool
    ensures { result ≡ serves hand worker.now.gateway worker.now.tasks }
{
    match hand {
        Hand::Alone(place) => match worker.gateway {
            None => has(worker.tasks.members(), place),
            Some(_) => false,
        },
        Hand::Gateway(gateway) => worker.gateway == Some(gateway),
    }
}

fn has(places: &[u64], place: u64) -> bool
    ensures { result ≡ is_one_of places.now place }
{
    match places {
        [] => false,
        [own, others @ ..] => *own == place || has(others, place),
    }
}

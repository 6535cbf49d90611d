//! The workers of phases, and their seats.

ghost use Rattle.std.specs.Prelude.{◌≡◌, IfOk};
ghost use Rattle.script_workers.specs.Hands.{hands_of, seats_from, worker_of, workers_from};

use crate::hand::Hand;
use crate::hands::{hands_of, places_of, small_count};
use crate::{Phase, Task, Worker, WorkerList};
use base::NoMemory;
use std::alloc::Global;

/// How many seats some phases take.
pub fn seats_of(alloc: Global, gateways: u32, phases: &[Phase]) -> Result<u32, NoMemory>
    ensures { IfOk result (λ seats. seats ≡ seats_from gateways 0 phases.now) }
{
    let mut seats = 0u32;
    for phase in phases {
        let hands = hands_of(alloc, gateways, phase.tasks.members())?;
        seats = seats.saturating_add(small_count(hands.len()));
    }
    Ok(seats)
}

/// The workers of a phase, where so many seats are taken.
pub fn phase_workers(
    alloc: Global,
    gateways: u32,
    before: u32,
    tasks: &[Task],
) -> Result<WorkerList, NoMemory>
    ensures { IfOk result (λ workers. workers
        ≡ workers_from gateways before tasks.now (hands_of gateways tasks.now)) }
{
    let hands = hands_of(alloc, gateways, tasks)?;
    let mut workers = WorkerList::new(alloc);
    let mut seat = before;
    for hand in hands.as_slice() {
        seat = seat.saturating_add(1);
        workers.push(worker_of(alloc, gateways, seat, *hand, tasks)?)?;
    }
    Ok(workers)
}

fn worker_of(
    alloc: Global,
    gateways: u32,
    seat: u32,
    hand: Hand,
    tasks: &[Task],
) -> Result<Worker, NoMemory>
    ensures { IfOk result (λ worker. worker ≡ worker_of gateways seat hand tasks.now) }
{
    Ok(Worker {
        seat,
        gateway: hand.gateway(),
        tasks: places_of(alloc, gateways, hand, tasks)?,
    })
}

//! Phases of workers in threads: that the journal has the operations of all, that they truly run beside each other, and
//! that a fault of one stops no other. How threads fall differs, so each is tried a hundred times.

ghost use Rattle.std.specs.Prelude.{◌≡◌, IfSome, vec_len};

use crate::threads::gates::Watch;
use crate::threads::job::{Asks, Calls, CallsEnd};
use crate::threads::worlds::{are_in_order, shared_world};
use bucket_core::{Fail, MemoryBucket};
use phase_runner::{Gate, Open, run_phase};
use std::alloc::Global;
use std::sync::Wait;
use std::thread::Threads;
use world_core::World;

/// The call that fails: the first opens the world, so this is the third put of both workers together.
const FAILING: Fail = Fail {
    call: 4,
    landed: false,
};

/// So many workers make so many reads each, under this gate. The journal has them all, and those of two workers in each one's order.
pub fn workers_share_a_journal<R: Threads + Wait + Sync, G: Gate + Sync>(
    rt: &R,
    alloc: Global,
    gate: &G,
    workers: u32,
    count: u64,
) -> bool {
    match phase_of(rt, alloc, gate, workers, (Asks::Reads, count), None) {
        Some(worked) => {
            let entries = worked.world.journal().entries();
            let good = entries.len() as u64 == u64::from(workers).saturating_mul(count)
                && (workers > 2 || are_in_order(entries, count));
            drop(worked);
            good
        }
        None => false,
    }
}

/// The gate is told how many operations two workers have done, before each of them. Where these meet, they wait for each other before
/// their operation number 2, so neither comes past it unless both run.
pub fn two_are_watched<R: Threads + Wait + Sync>(
    rt: &R,
    alloc: Global,
    meets: bool,
    count: u64,
) -> bool {
    are_watched(rt, alloc, &Watch::new(meets, 1, 2), 2, count)
}

/// Of five workers each meets the next one, in a phase of its own, however few threads do their jobs.
pub fn neighbours_meet<R: Threads + Wait + Sync>(rt: &R, alloc: Global) -> bool {
    for seat in 1..5 {
        let gate = Watch::new(true, seat, 5);
        if !are_watched(rt, alloc, &gate, 5, 5) {
            return false;
        }
    }
    true
}

/// Whether the gate of a phase of so many workers saw both of those that it watches.
fn are_watched<R: Threads + Wait + Sync>(
    rt: &R,
    alloc: Global,
    gate: &Watch,
    workers: u32,
    count: u64,
) -> bool {
    workers_share_a_journal(rt, alloc, gate, workers, count)
        && gate.has_counted(count)
        && gate.saw_both()
}

/// Two workers put three objects each, over a bucket of which one call fails. One of them stops there, and the other puts all:
/// the journal has the puts that did not fail and the one that did.
pub fn a_fault_stops_no_other<R: Threads + Wait + Sync>(rt: &R, alloc: Global) -> bool {
    match phase_of(rt, alloc, &Open, 2, (Asks::Puts, 3), Some(FAILING)) {
        Some(worked) => {
            let good = has_stopped_one(worked.ends.as_slice(), worked.world.journal().len());
            drop(worked);
            good
        }
        None => false,
    }
}

/// Whether one worker stopped and the other put all three, where the journal has so many entries.
fn has_stopped_one(ends: &[CallsEnd], entries: u64) -> bool {
    let [one, two] = ends else {
        return false;
    };
    let (less, more) = if one.done < two.done {
        (one.done, two.done)
    } else {
        (two.done, one.done)
    };
    more == 3 && less < 3 && entries == less.saturating_add(4)
}

/// The ends of workers' jobs, and the world that they left.
#[derive(Drop)]
struct Worked {
    ends: Vec<CallsEnd>,
    world: World<MemoryBucket>,
}

/// A phase of so many workers that ask so many times each, over an empty bucket of which a call may fail.
fn phase_of<R: Threads + Wait + Sync, G: Gate + Sync>(
    rt: &R,
    alloc: Global,
    gate: &G,
    workers: u32,
    each: (Asks, u64),
    failing: Option<Fail>,
) -> Option<Worked> {
    let jobs = same_jobs(alloc, workers, each)?;
    let Some((shared, root)) = shared_world(alloc, failing) else {
        drop(jobs);
        return None;
    };
    let end = run_phase(rt, alloc, &shared, root, jobs, gate);
    let world = shared.close(end.root).into_world();
    Some(Worked {
        ends: end.ends,
        world,
    })
}

/// So many jobs that are alike.
fn same_jobs(alloc: Global, workers: u32, each: (Asks, u64)) -> Option<Vec<Calls>>
    ensures { IfSome result (λ jobs. vec_len jobs ≡ workers) }
{
    let (asks, count) = each;
    let mut jobs = Vec::new(alloc);
    for _ in 0..workers {
        jobs.push(Calls { alloc, asks, count }).ok()?;
    }
    Some(jobs)
}

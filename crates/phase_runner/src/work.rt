//! One job in a thread, and how many threads a phase is worth: a thread takes longer to start than a small upload
//! takes, and workers who wait for each other's turns gain nothing by more of them.

ghost use Rattle.std.specs.Prelude.{◌≡◌, ℕ, ◌<◌, length, All, slice_index_or};
ghost use Rattle.phase_runner.specs.Works.{IsReady, IsDone};

use crate::shares::{for_each_beside, processors};
use crate::{Gate, Job, TurnHand};
use bucket_core::Bucket;
use std::sync::Wait;
use std::thread::Threads;
use world_turn::{Pass, Shared};

/// The place of one worker: its job before, and its end after.
#[derive(Drop)]
pub(crate) struct Work<J: Job> {
    pub(crate) job: Option<J>,
    pub(crate) pass: Option<Pass>,
    pub(crate) end: Option<J::End>,
}

/// Does the job that waits at a place.
fn run_one<B: Bucket, J: Job + Drop, G: Gate, R: Wait>(
    rt: &R,
    shared: &Shared<B>,
    gate: &G,
    work: &mut Work<J>,
)
    requires { IsReady shared.now.table.shared.table_id work.old.job work.old.pass }
    ensures { IsDone J.may (record { full = J.met_full; wanted = J.wanted })
        work.old.job work.old.pass work.new.end work.new.pass }
{
    let Some(job) = work.job.take() else {
        unreachable!()
    };
    let Some(pass) = work.pass.take() else {
        unreachable!()
    };
    let mut hand = TurnHand::new(shared, gate, rt, pass);
    let end = job.run(&mut hand);
    work.pass = Some(hand.into_pass());
    work.end = Some(end);
}

/// So many threads do a phase's jobs at most.
const MOST_THREADS: usize = 16;

/// And so many at least, where there are as many jobs, so that workers overlap on one processor too.
const LEAST_THREADS: usize = 2;

/// So many do the jobs of a phase that is light.
const LIGHT_THREADS: usize = 3;

/// A phase is light where its jobs together are no heavier than this.
const LIGHT_WEIGHT: u64 = 100_000;

/// How many threads do the jobs at most: one for each processor, within the bounds. More would gain nothing, and to start one takes
/// longer than a small upload does. Of light jobs the operations, for which they wait on each other, are about half; and just to ask
/// how many processors there are takes as long as one or two of them.
fn threads_for<J: Job, R: Threads>(rt: &R, works: &[Work<J>]) -> usize
    requires { 0 < length works.now }
    ensures { 0 < result }
{
    let most = if are_light(works) {
        LIGHT_THREADS
    } else {
        processors(rt).clamp(LEAST_THREADS, MOST_THREADS)
    };
    works.len().min(most)
}

/// Whether the jobs that wait are light together. Once they are not, the others are not asked.
fn are_light<J: Job>(works: &[Work<J>]) -> bool {
    let mut sum = 0u64;
    for work in works {
        if let Some(job) = &work.job {
            sum = sum.saturating_add(job.weight());
        }
        if sum > LIGHT_WEIGHT {
            return false;
        }
    }
    true
}

/// Does all jobs beside each other, in at most as many threads as `threads_for` says. Of more jobs than threads, some are done one after
/// another by one thread, but neighbours by different ones.
pub(crate) fn run_all<
    B: Bucket + Send,
    J: Job + Drop + Send,
    G: Gate + Sync,
    R: Threads + Wait + Sync,
>(rt: &R, shared: &Shared<B>, gate: &G, works: &mut [Work<J>])
where
    J::End: Send,
    requires { All (λ w. IsReady shared.now.table.shared.table_id w.job w.pass) works.old }
    ensures { (i : ℕ) (d : _) → i < length works.old
        → IsDone J.may (record { full = J.met_full; wanted = J.wanted })
        (slice_index_or works.old i d).job (slice_index_or works.old i d).pass
        (slice_index_or works.new i d).end (slice_index_or works.new i d).pass }
{
    if works.is_empty() {
        return;
    }
    let threads = threads_for(rt, works);
    for_each_beside(
        rt,
        works,
        threads,
        &|_, work| { run_one(rt, shared, gate, work) },
    );
}

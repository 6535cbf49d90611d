//! The workers of a phase beside each other. Each has a pass that is split from the root before the first job begins
//! and joined again behind the last, so the root knows afterwards what any of them has met.

ghost use Rattle.std.specs.Prelude.{◌≡◌, ◌⊎◌, ◌||◌, IsTrue, ℕ, ◌+◌, ◌^◌, ◌<◌, ◌≤◌, [], true, Some, map, vec_len, List, MatchBool};
ghost use Rattle.std.specs.List.{list_any};
ghost use Rattle.phase_runner.specs.Phases.{AreSeated, AreEnded, HasSplit, HasJoined, HasRun, Runs};
ghost use Rattle.world_core.specs.declared.entry.Entry.{Entry};
ghost use Rattle.world_turn.specs.Closing.{AllJoined};
ghost use Rattle.world_turn.specs.Passes.{table_of, view_of};

use crate::work::{Work, run_all};
use crate::{Gate, Job};
use bucket_core::Bucket;
use std::alloc::Global;
use std::snapshot::Snapshot;
use std::sync::Wait;
use std::thread::Threads;
use world_turn::{Pass, Shared};

/// What a phase leaves.
#[derive(Drop)]
pub struct PhaseEnd<E> {
    /// The ends of the jobs, in the jobs' order.
    pub ends: Vec<E>,
    pub root: Pass,
    /// Memory was wanting before the first job began, and no job was done.
    pub memory: bool,
}

/// Does jobs beside each other, each with a pass of its own, in at most as many threads as there are processors. On one processor these
/// are two, and on many never more than 16. A phase of light jobs has at most three, on one processor too.
///
/// Of more jobs than threads, some are done one after another by one thread. They are dealt out in turn, so that neighbours are done by
/// different threads.
///
/// It takes all its memory before the first job begins. A job that wants memory says so in its own end.
pub fn run_phase<B: Bucket + Send, J: Job + Drop + Send, G: Gate + Sync, R: Threads + Wait + Sync>(
    rt: &R,
    alloc: Global,
    shared: &Shared<B>,
    root: Pass,
    jobs: Vec<J>,
    gate: &G,
) -> PhaseEnd<J::End>
where
    J::End: Send,
    requires own { (table_of root ≡ shared.now.table.shared.table_id) × (root.seat ≡ 0) }
    requires few { root.splits + vec_len jobs < 2 ^ 32 }
    ensures pass { (table_of result.root ≡ table_of root) × (result.root.seat ≡ 0) }
    ensures run { MatchBool result.memory ((result.root ≡ root) × (result.ends.items ≡ []))
        ((kept : List (ℕ × List Entry)) × HasRun root result.root (vec_len jobs) kept
        × Runs J.may (view_of root).known (view_of result.root).front (root.splits + 1) jobs.items
        result.ends.items kept) }
    ensures all { AllJoined (view_of root) → AllJoined (view_of result.root) }

    // The root says that the full journal was met just where it said so before, or where a job's end does.
    ensures refused { (view_of result.root).refused
        ≡ ((view_of root).refused || list_any J.met_full result.ends.items) }

    // It says that memory was wanted only where it said so before, or where a job's end does.
    ensures wanted { IsTrue (view_of result.root).wanted
        → IsTrue (view_of root).wanted ⊎ IsTrue (list_any J.wanted result.ends.items) }
{
    let count = jobs.len();
    let Ok(mut works) = Vec::with_capacity(alloc, count) else {
        return unbegun_phase(alloc, root);
    };
    let Ok(mut ends) = Vec::with_capacity(alloc, count) else {
        return unbegun_phase(alloc, root);
    };
    let first = Snapshot::of(&root);
    let all = Snapshot::of(&jobs);
    let root = split_all(shared, root, jobs, &mut works);
    run_all(rt, shared, gate, works.as_mut_slice());
    let root = join_all(shared, &first, &all, root, works, &mut ends);
    PhaseEnd {
        ends,
        root,
        memory: false,
    }
}

/// Memory was wanting before the first job.
fn unbegun_phase<E>(alloc: Global, root: Pass) -> PhaseEnd<E>
    ensures { (result.root ≡ root) × (result.ends.items ≡ []) × (result.memory ≡ true) }
{
    PhaseEnd {
        ends: Vec::new(alloc),
        root,
        memory: true,
    }
}

/// Splits one pass for each job, in their order. The room is there.
fn split_all<B: Bucket, J: Job + Drop>(
    shared: &Shared<B>,
    root: Pass,
    jobs: Vec<J>,
    works: &mut Vec<Work<J>>,
) -> Pass
    requires own { (table_of root ≡ shared.now.table.shared.table_id) × (root.seat ≡ 0) }
    requires few { root.splits + vec_len jobs < 2 ^ 32 }
    requires room { (works.old.items ≡ []) × (vec_len jobs ≤ works.old.cap) }
    ensures root { HasSplit root result (vec_len jobs) }
    ensures works { AreSeated shared.now.table.shared.table_id (view_of root) (root.splits + 1)
        jobs.items (map (λ w. (w.job, w.pass)) works.new.items) }
{
    let mut root = root;
    for job in jobs {
        let (rest, pass) = shared.split_pass(root);
        root = rest;
        works.push_reserved(Work {
            job: Some(job),
            pass: Some(pass),
            end: None,
        });
    }
    root
}

/// Joins the pass of each worker, in their order. The room for their ends is there.
fn join_all<B: Bucket, J: Job + Drop>(
    shared: &Shared<B>,
    first: &Snapshot<Pass>,
    jobs: &Snapshot<Vec<J>>,
    root: Pass,
    works: Vec<Work<J>>,
    ends: &mut Vec<J::End>,
) -> Pass
    requires own { (table_of root ≡ shared.now.table.shared.table_id) × (root.seat ≡ 0) }
    requires ended { AreEnded J.may (record { full = J.met_full; wanted = J.wanted })
        shared.now.table.shared.table_id (view_of first.now.value)
        (first.now.value.splits + 1) jobs.now.value.items
        (map (λ w. (w.pass, w.end)) works.items) }
    requires room { (ends.old.items ≡ []) × (vec_len works ≤ ends.old.cap) }
    ensures joined { (kept : List (ℕ × List Entry)) × HasJoined root result kept
        × Runs J.may (view_of first.now.value).known (view_of result).front
        (first.now.value.splits + 1) jobs.now.value.items ends.new.items kept }
    ensures refused { (view_of result).refused
        ≡ ((view_of root).refused || list_any J.met_full ends.new.items) }
    ensures wanted { IsTrue (view_of result).wanted
        → IsTrue (view_of root).wanted ⊎ IsTrue (list_any J.wanted ends.new.items) }
{
    let mut root = root;
    for work in works {
        let (pass, end) = parts(work);
        root = shared.join_pass(root, pass);
        ends.push_reserved(end);
    }
    root
}

/// What a worker leaves at its place.
fn parts<J: Job + Drop>(work: Work<J>) -> (Pass, J::End)
    requires { (p : Pass) × (e : J.End) × (work.pass ≡ Some p) × (work.end ≡ Some e) }
    ensures { (work.pass ≡ Some result.0) × (work.end ≡ Some result.1) }
{
    let Work { job: _, pass, end } = work;
    match (pass, end) {
        (Some(pass), Some(end)) => (pass, end),
        _ => unreachable!(),
    }
}

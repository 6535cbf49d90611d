//! The answers to a query are compared beside each other in threads.

ghost use Rattle.std.specs.Prelude.{ℕ, ◌<◌, length, slice_index_or};
ghost use Rattle.std.specs.Thread.{IsSync};
ghost use Rattle.querier.specs.Gathered.{IsComparedWith};

use label_sets::sample_count;
use phase_runner::{for_each_beside, processors};
use querier::{Answer, CompareWay, InTurn};
use std::alloc::Global;
use std::thread::Threads;

/// Answers like a first one of fewer samples are compared sooner than a thread is made.
const LEAST_SAMPLES: u64 = 100_000;

/// Two threads that compare one answer after another take as long as one that compares four at a time.
const LEAST_THREADS: usize = 3;

/// Beside each other, in threads.
#[derive(Drop)]
pub(crate) struct Beside<'a, T> {
    pub(crate) rt: &'a T,
}

impl<'a, T: Threads + Sync> CompareWay for Beside<'a, T> {
    ghost can_compare = { λ _. IsSync T.row };

    fn compare_all(&self, alloc: Global, first: &Answer, others: &mut [Answer]) {
        compare_beside(self.rt, alloc, first, others);
    }
}

/// Compares each of the others with the first answer, in at most as many threads as there are processors, and lets go there what repeats
/// it. Where there are fewer than two others or few processors, or the first answer has few samples, no thread is started.
fn compare_beside<T: Threads + Sync>(rt: &T, alloc: Global, first: &Answer, others: &mut [Answer])
    ensures { (i : ℕ) (d : _) → i < length others.old
        → IsComparedWith first.now (slice_index_or others.old i d)
        (slice_index_or others.new i d) }
{
    if others.len() < 2 || sample_count(first.series.members()) < LEAST_SAMPLES {
        InTurn.compare_all(alloc, first, others);
        return;
    }
    let threads = processors(rt);
    if threads < LEAST_THREADS {
        InTurn.compare_all(alloc, first, others);
        return;
    }
    for_each_beside(
        rt,
        others,
        threads,
        &|_, other| { other.empty_repeat(alloc, first) },
    );
}

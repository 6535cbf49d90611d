//! Blocks that were loaded from the shelf are checked beside each other in threads.

ghost use Rattle.std.specs.Prelude.{ℕ, ◌<◌, length, slice_index_or};
ghost use Rattle.std.specs.Thread.{IsSync};
ghost use Rattle.call_verdicts.specs.Stages.{IsCheckedAs};

use call_verdicts::{CheckWay, InTurn, Stage};
use phase_runner::{for_each_beside, processors};
use std::alloc::Global;
use std::thread::Threads;

/// So many of a script's blocks are loaded at most before they are checked, so that the series of no more indexes lie in memory beside
/// the blocks' files.
const MOST_LOADED: usize = 16;

/// Beside each other, in threads.
#[derive(Drop)]
pub(crate) struct Beside<'a, T> {
    pub(crate) rt: &'a T,
}

impl<'a, T: Threads + Sync> CheckWay for Beside<'a, T> {
    ghost can_check = { λ _. IsSync T.row };

    fn at_once(&self) -> usize {
        MOST_LOADED
    }

    fn check_all(&self, alloc: Global, stages: &mut [Stage]) {
        check_beside(self.rt, alloc, stages);
    }
}

/// Checks all blocks that are loaded, in at most as many threads as there are processors. Of more blocks than threads, some are checked
/// one after another by one thread. Where just one is loaded, or none, no thread is started.
fn check_beside<T: Threads + Sync>(rt: &T, alloc: Global, stages: &mut [Stage])
    ensures { (i : ℕ) (d : _) → i < length stages.old
        → IsCheckedAs (slice_index_or stages.old i d) (slice_index_or stages.new i d) }
{
    if loaded_count(stages) < 2 {
        InTurn.check_all(alloc, stages);
        return;
    }
    for_each_beside(
        rt,
        stages,
        processors(rt),
        &|_, stage| { stage.check(alloc) },
    );
}

/// How many of the blocks are loaded.
fn loaded_count(stages: &[Stage]) -> usize {
    let mut count = 0usize;
    for stage in stages {
        if let Stage::Loaded(_) = stage {
            count = count.saturating_add(1);
        }
    }
    count
}

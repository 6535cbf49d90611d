//! How far the checks of a script's blocks are, and ways to check those that were loaded: one after another, or as a caller does it.

ghost use Rattle.std.specs.Prelude.{ℕ, ◌<◌, length, slice_index_or};
ghost use Rattle.call_verdicts.specs.Stages.{IsCheckedAs};

use block_content::Checked;
use block_loading::{LoadRefusal, LoadedBlock};
use std::alloc::Global;
use std::mem;

/// How far the check of a block is.
#[derive(Drop)]
pub enum Stage {
    /// There is none, as the script has the block's samples.
    Aside,
    Loaded(LoadedBlock),
    /// The block was checked, or loading it came to an end.
    Ended(Result<Checked, LoadRefusal>),
}

impl Stage {
    /// Checks the block, if it is loaded.
    pub fn check(&mut self, alloc: Global)
        ensures { IsCheckedAs self.old self.new }
    {
        *self = match mem::replace(self, Stage::Aside) {
            Stage::Loaded(block) => Stage::Ended(block.check(alloc)),
            stage => stage,
        };
    }
}

/// A way to check blocks that were loaded.
pub trait CheckWay {
    /// What has to hold for blocks to be checked so, for example that what threads are lent may be shared.
    ghost can_check: { Self → Type 0 };

    /// How many of a script's blocks are loaded, at most, before those that are loaded are checked.
    fn at_once(&self) -> usize
        ensures { 0 < result };

    /// Checks all blocks that are loaded.
    fn check_all(&self, alloc: Global, stages: &mut [Stage])
        requires { can_check self.now }
        ensures { (i : ℕ) (d : _) → i < length stages.old
            → IsCheckedAs (slice_index_or stages.old i d) (slice_index_or stages.new i d) };
}

/// One after another: each block is checked before the next one is loaded.
#[derive(Drop)]
pub struct InTurn;

impl CheckWay for InTurn {
    ghost can_check = { λ _. Unit {0} };

    fn at_once(&self) -> usize {
        1
    }

    fn check_all(&self, alloc: Global, stages: &mut [Stage]) {
        check_in_turn(alloc, stages);
    }
}

/// Checks one block after another.
fn check_in_turn(alloc: Global, stages: &mut [Stage])
    ensures { (i : ℕ) (d : _) → i < length stages.old
        → IsCheckedAs (slice_index_or stages.old i d) (slice_index_or stages.new i d) }
{
    for place in 0..stages.len() {
        stages[place].check(alloc);
    }
}

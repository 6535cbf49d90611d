ghost use Rattle.std.specs.Prelude.{◌≡◌};
ghost use Rattle.run_notes.specs.Notes.{Tells};

use bucket_core::Bucket;
use std::snapshot::Snapshot;
use world_core::World;

/// What the operations of a run were answered: whether one was that the journal is full; that memory was wanted for one, which it tells
/// only where it was; and which world the run left.
///
/// It is made of what did the operations of the whole run, and of nothing else: by `Finished` alone.
#[derive(Drop)]
pub struct RunNote<B: Bucket> {
    full: bool,
    wanted: bool,
    world: Snapshot<World<B>>,
}

impl<B: Bucket> RunNote<B> {
    /// Whether an operation was answered that the journal is full.
    pub fn met_full(&self) -> bool
        ensures { result ≡ self.now.full }
    {
        self.full
    }

    /// Memory was wanted for an operation, so the bucket may have been asked for one that the journal does not show. Unless this is
    /// said, it was asked for those that the journal shows.
    pub fn wanted_memory(&self) -> bool
        ensures { result ≡ self.now.wanted }
    {
        self.wanted
    }

    /// The note of a run that left a world.
    pub(crate) fn new(full: bool, wanted: bool, world: &World<B>) -> RunNote<B>
        ensures { Tells full wanted world.now result }
    {
        RunNote {
            full,
            wanted,
            world: Snapshot::of(world),
        }
    }
}

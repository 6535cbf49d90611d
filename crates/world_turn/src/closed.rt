ghost use Rattle.std.specs.Prelude.{◌≡◌};
ghost use Rattle.world_turn.specs.Passes.{view_of};

use crate::Pass;
use bucket_core::Bucket;
use std::snapshot::Snapshot;
use world_core::World;

/// A shared world that was closed, and what its root knew then. It is made by `Shared::close` alone.
#[derive(Drop)]
pub struct Closed<B: Bucket> {
    pub(crate) world: World<B>,
    pub(crate) root: Snapshot<Pass>,
    pub(crate) refused: bool,
    pub(crate) wanted: bool,
    ghost told: { (refused ≡ (view_of root.value).refused)
        × (wanted ≡ (view_of root.value).wanted) },
}

impl<B: Bucket> Closed<B> {
    /// The world, as it was left.
    pub fn world(&self) -> &World<B>
        ensures { result.now ≡ self.now.world }
    {
        &self.world
    }

    /// Whether an operation of one of its passes was answered that the journal is full.
    pub fn met_full(&self) -> bool
        ensures { result ≡ (view_of self.now.root.value).refused }
    {
        self.refused
    }

    /// Whether memory was wanted in an operation of one of its passes.
    pub fn wanted_memory(&self) -> bool
        ensures { result ≡ (view_of self.now.root.value).wanted }
    {
        self.wanted
    }

    /// The world.
    pub fn into_world(self) -> World<B>
        ensures { result ≡ self.world }
    {
        self.world
    }
}

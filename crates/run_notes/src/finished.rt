//! The end of a run over a world. It hands out the journal and the bucket apart, never the world, so that no operation
//! can be done behind the note that says what the run's operations were answered.

ghost use Rattle.std.specs.Prelude.{◌≡◌, [], None, IsSomeAnd};
ghost use Rattle.run_notes.specs.Notes.{Tells};
ghost use Rattle.world_turn.specs.Passes.{view_of};

use crate::{LineHand, RunNote};
use bucket_core::Bucket;
use world_core::{Journal, World};
use world_turn::Closed;

/// A world in which nothing more is done, with the note of its run, unless nothing was begun.
///
/// It is made of what did every operation on the world since its journal was empty. It hands out the journal and the bucket, and
/// never the world. So its note is that of all the run's operations.
#[derive(Drop)]
pub struct Finished<B: Bucket> {
    world: World<B>,
    note: Option<RunNote<B>>,
}

impl<B: Bucket> Finished<B> {
    ghost use Rattle.world_core.specs.Worlds.{IsWorld};

    /// A run whose tasks were done one after another, by a hand that was made over an empty journal.
    pub fn of_hand(hand: LineHand<B>) -> Finished<B>
        requires fresh { hand.opened.value.journal ≡ [] }
        ensures world { result.world ≡ hand.world }
        ensures note { IsSomeAnd result.note (Tells hand.refused hand.wanted result.world) }
    {
        let full = hand.met_full();
        let wanted = hand.wanted_memory();
        let world = hand.into_world();
        let note = RunNote::new(full, wanted, &world);
        Finished {
            world,
            note: Some(note),
        }
    }

    /// A run with threads.
    pub fn of_closed(closed: Closed<B>) -> Finished<B>
        ensures world { result.world ≡ closed.world }
        ensures note { IsSomeAnd result.note (Tells (view_of closed.root.value).refused
            (view_of closed.root.value).wanted result.world) }
    {
        let full = closed.met_full();
        let wanted = closed.wanted_memory();
        let world = closed.into_world();
        let note = RunNote::new(full, wanted, &world);
        Finished {
            world,
            note: Some(note),
        }
    }

    /// A world in which nothing was begun.
    pub fn unbegun(world: World<B>) -> Finished<B>
        requires fresh { world.journal ≡ [] }
        ensures world { result.world ≡ world }
        ensures note { result.note ≡ None }
    {
        Finished { world, note: None }
    }

    /// The note, the journal and the bucket.
    pub fn into_parts(self) -> (Option<RunNote<B>>, Journal, B)
        ensures note { result.0 ≡ self.note }
        ensures journal { result.1 ≡ self.world.journal }
        ensures bucket { result.2 ≡ self.world.bucket }
        ensures holds { IsWorld B.told self.world }
    {
        let Finished { world, note } = self;
        let (journal, bucket) = world.into_parts();
        (note, journal, bucket)
    }
}

//! The hand of a run in line, which does the operations of all workers. It keeps what it met, and no caller can make it
//! forget that: so the note that is made of it can be relied on.

ghost use Rattle.std.specs.Prelude.{◌≡◌, false};

use bucket_core::Bucket;
use std::snapshot::Snapshot;
use world_core::{Acted, Hand, Op, World};

/// The hand of a run whose tasks are done one after another: it does the operations of all its workers, from seat to seat, on a
/// world of its own.
///
/// It keeps whether an operation was answered that the journal is full, and whether memory was wanted for one. Nothing makes it
/// forget that: it lends its world, and hands it out to `Finished` alone.
#[derive(Drop)]
pub struct LineHand<B: Bucket> {
    world: World<B>,
    seat: u32,
    refused: bool,
    wanted: bool,
    /// The world over which it was made, as it was then.
    opened: Snapshot<World<B>>,
}

impl<B: Bucket> LineHand<B> {
    /// A hand at seat 0, which has been refused nothing yet, and has wanted no memory.
    pub fn new(world: World<B>) -> Self
        ensures world { result.world ≡ world }
        ensures seat { result.seat ≡ 0 }
        ensures opened { result.opened.value ≡ world }
        ensures refused { result.refused ≡ false }
        ensures wanted { result.wanted ≡ false }
    {
        let opened = Snapshot::of(&world);
        LineHand {
            world,
            seat: 0,
            refused: false,
            wanted: false,
            opened,
        }
    }

    /// Goes to another seat.
    pub fn at_seat(&mut self, seat: u32)
        ensures { self.new ≡ record self.old { seat = seat } }
    {
        self.seat = seat;
    }

    /// The world, as it is now.
    pub fn world(&self) -> &World<B>
        ensures { result.now ≡ self.now.world }
    {
        &self.world
    }

    /// Whether an operation was answered that the journal is full.
    pub(crate) fn met_full(&self) -> bool
        ensures { result ≡ self.now.refused }
    {
        self.refused
    }

    /// Whether memory was wanted for an operation.
    pub(crate) fn wanted_memory(&self) -> bool
        ensures { result ≡ self.now.wanted }
    {
        self.wanted
    }

    /// The world, in which nothing more is done by it.
    pub(crate) fn into_world(self) -> World<B>
        ensures { result ≡ self.world }
    {
        self.world
    }
}

impl<B: Bucket> Hand for LineHand<B> {
    ghost use Rattle.std.specs.Prelude.{◌≡◌, ◌⊎◌, ◌++◌, ◌||◌, ◌<◌, ◌≤◌, IsTrue, Some, length};
    ghost use Rattle.world_core.specs.Keeping.{IsFull};
    ghost use Rattle.world_core.specs.Machines.{gained, IfDone, is_full, is_wanting};
    ghost use Rattle.world_core.specs.Operations.{IsLawful, IsAnswer};
    ghost use Rattle.run_notes.specs.LineHands.{KeepsRun, keeps_run-none, keeps_run-more};

    ghost told = { λ hand. record {
      entries = hand.world.journal;
      seat = hand.seat;
      front = Some hand.world.journal;
      known = length hand.world.journal;
      refused = hand.refused;
      wanted = hand.wanted;
    } };

    ghost keeps = { λ old new. KeepsRun B.told old.opened.value old.wanted
        old.world new.opened.value new.wanted new.world };

    ghost keeps_none = { λ hand. keeps_run-none B.told hand.opened.value
        hand.wanted hand.world };

    ghost keeps_more = { λ first next last one two. keeps_run-more B.told
        first.opened.value next.opened.value last.opened.value first.wanted next.wanted
        last.wanted first.world next.world last.world one two };

    /// It says what every hand says, and that it notes want of memory just where an operation is answered so (`wanting`).
    #[tactic(auto, using(world_core::proofs::GoingOn::acted_goes_on, world_core::proofs::Numbers::above, world_core::proofs::Numbers::within, world_core::proofs::Numbers::later))]
    fn act(&mut self, op: Op) -> Acted
        requires { IsLawful op }
        ensures entries { self.new.world.journal
            ≡ self.old.world.journal ++ gained self.old.seat op result }
        ensures answer { IfDone result (IsAnswer op) }
        ensures seat { self.new.seat ≡ self.old.seat }
        ensures refused { self.new.refused ≡ (self.old.refused || is_full result) }
        ensures full { result ≡ Acted.Full → IsFull self.new.world.journal }
        ensures memory { result ≡ Acted.NoMemory → ¬ IsFull self.new.world.journal }
        ensures wanted { IsTrue self.new.wanted
            → IsTrue self.old.wanted ⊎ (result ≡ Acted.NoMemory) }
        ensures wanting { self.new.wanted ≡ (self.old.wanted || is_wanting result) }
        ensures keeps { KeepsRun B.told self.old.opened.value self.old.wanted
            self.old.world self.new.opened.value self.new.wanted self.new.world }
        ensures above { IfDone result (λ seen. length self.old.world.journal < seen.seq) }
        ensures within { IfDone result (λ seen. seen.seq ≤ length self.new.world.journal) }
        ensures known { length self.old.world.journal ≤ length self.new.world.journal }
    {
        let acted = self.world.act(self.seat, op);
        match acted {
            Acted::Full => self.refused = true,
            Acted::NoMemory => self.wanted = true,
            Acted::Done(_) => {}
        }
        acted
    }

    fn look(&mut self) -> u64 {
        self.world.journal().len()
    }
}

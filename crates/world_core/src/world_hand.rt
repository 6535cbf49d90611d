//! The hand of an activity that has a world to itself: all its operations are done at one seat, and the world is handed
//! back behind them.

ghost use Rattle.std.specs.Prelude.{◌≡◌, Some, false, length};

use crate::{Acted, Hand, Op, World};
use bucket_core::Bucket;

/// A hand that does the operations of one seat on a world of its own.
#[derive(Drop)]
pub struct WorldHand<B: Bucket> {
    world: World<B>,
    seat: u32,
    refused: bool,
    wanted: bool,
}

impl<B: Bucket> WorldHand<B> {
    /// A hand of this seat, which has been refused nothing yet.
    pub fn new(world: World<B>, seat: u32) -> Self
        ensures world { result.world ≡ world }
        ensures seat { result.seat ≡ seat }
        ensures refused { result.refused ≡ false }
        ensures wanted { result.wanted ≡ false }
    {
        WorldHand {
            world,
            seat,
            refused: false,
            wanted: false,
        }
    }

    /// Hands the world back.
    pub fn into_world(self) -> World<B>
        ensures { result ≡ self.world }
    {
        self.world
    }
}

impl<B: Bucket> Hand for WorldHand<B> {
    ghost use Rattle.world_core.specs.Asking.{KeepsAsked, asked-none, asked-more};
    ghost use Rattle.world_core.specs.Worlds.{WorldGoesOn, goes_on-none, goes_on-more};

    ghost told = { λ hand. record {
      entries = hand.world.journal;
      seat = hand.seat;
      front = Some hand.world.journal;
      known = length hand.world.journal;
      refused = hand.refused;
      wanted = hand.wanted;
    } };

    ghost keeps = { λ old new. WorldGoesOn B.told old.world new.world
        × KeepsAsked B.told old.wanted old.world new.wanted new.world };

    ghost keeps_none = { λ hand. (
      goes_on-none B.told hand.world,
      asked-none B.told hand.wanted hand.world,
    ) };

    ghost keeps_more = { λ first next last one two. (
      goes_on-more B.told first.world next.world last.world one.0 two.0,
      asked-more B.told first.wanted next.wanted last.wanted first.world next.world last.world
          one.1 two.1,
    ) };

    #[tactic(auto, using(crate::proofs::GoingOn::acted_goes_on, crate::proofs::Numbers::above, crate::proofs::Numbers::within, crate::proofs::Numbers::later))]
    fn act(&mut self, op: Op) -> Acted {
        let acted = self.world.act(self.seat, op);
        match acted {
            Acted::Full => self.refused = true,
            Acted::NoMemory => self.wanted = true,
            Acted::Done(_) => {}
        }
        acted
    }

    fn look(&mut self) -> u64 {
        self.world.journal().len()
    }
}

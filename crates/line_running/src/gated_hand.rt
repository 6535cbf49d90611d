//! The hand of a run in line, beside a gate that is told how far the run is.

ghost use Rattle.std.specs.Prelude.{◌≡◌};

use bucket_core::Bucket;
use phase_runner::{Gate, put_bytes, tell_moved};
use run_notes::LineHand;
use std::marker::Model;
use world_core::{Acted, Hand, Op};

/// The hand of a run in line. Contracts see it as that alone: what the gate is told changes nothing.
#[derive(Drop)]
pub(crate) struct GatedHand<'a, B: Bucket, G: Gate> {
    hand: LineHand<B>,
    gate: &'a G,
}

impl<'a, B: Bucket, G: Gate> Model for GatedHand<'a, B, G> {
    ghost use Rattle.run_notes.specs.declared.line_hand.LineHand.{LineHand};

    ghost Value = { LineHand B };

    ghost view = { λ gated. gated.hand };
}

impl<'a, B: Bucket, G: Gate> GatedHand<'a, B, G> {
    /// The hand beside this gate.
    pub(crate) fn new(hand: LineHand<B>, gate: &'a G) -> Self
        ensures { result ≡ hand }
    {
        GatedHand { hand, gate }
    }

    /// Tells the gate that the phase at a place begins, of so many.
    pub(crate) fn begins(&self, place: usize, count: usize) {
        self.gate.begins(place, count);
    }

    /// Goes to another seat.
    pub(crate) fn at_seat(&mut self, seat: u32)
        ensures { self.new ≡ record self.old { seat = seat } }
    {
        self.hand.at_seat(seat);
    }

    /// The hand without the gate.
    pub(crate) fn into_hand(self) -> LineHand<B>
        ensures { result ≡ self.entry }
    {
        let GatedHand { hand, gate: _ } = self;
        hand
    }
}

impl<'a, B: Bucket, G: Gate> Hand for GatedHand<'a, B, G> {
    ghost use Rattle.std.specs.Prelude.{Some, length};
    ghost use Rattle.run_notes.specs.LineHands.{KeepsRun, keeps_run-none, keeps_run-more};

    ghost told = { λ hand. record {
      entries = hand.world.journal;
      seat = hand.seat;
      front = Some hand.world.journal;
      known = length hand.world.journal;
      refused = hand.refused;
      wanted = hand.wanted;
    } };

    ghost keeps = { λ old new. KeepsRun B.told old.opened.value old.wanted
        old.world new.opened.value new.wanted new.world };

    ghost keeps_none = { λ hand. keeps_run-none B.told hand.opened.value
        hand.wanted hand.world };

    ghost keeps_more = { λ first next last one two. keeps_run-more B.told
        first.opened.value next.opened.value last.opened.value first.wanted next.wanted
        last.wanted first.world next.world last.world one two };

    /// The gate is told of it once it is done.
    fn act(&mut self, op: Op) -> Acted {
        let put = put_bytes(&op);
        let acted = self.hand.act(op);
        tell_moved(self.gate, put, &acted);
        acted
    }

    fn look(&mut self) -> u64 {
        self.hand.look()
    }
}

//! The hand of one worker in its thread: each operation takes a turn on the shared world. The gate is asked before the
//! turn is, so that a worker that is held up there keeps no other waiting, and told of the operation behind it.

ghost use Rattle.std.specs.Prelude.{◌≡◌};
ghost use Rattle.world_turn.specs.Passes.{table_of, view_of};

use crate::Gate;
use crate::gate::{put_bytes, tell_moved};
use bucket_core::Bucket;
use std::marker::Model;
use std::sync::Wait;
use world_core::{Acted, Hand, Op};
use world_turn::{Pass, Shared};

/// A hand that does the operations of one pass on a shared world.
pub struct TurnHand<'a, B: Bucket, G: Gate, R: Wait> {
    shared: &'a Shared<B>,
    gate: &'a G,
    rt: &'a R,
    /// It is away only while an operation is done.
    pass: Option<Pass>,
    /// How many operations were done.
    number: u64,
}

impl<'a, B: Bucket, G: Gate, R: Wait> Model for TurnHand<'a, B, G, R> {
    ghost use Rattle.phase_runner.specs.Hands.{HandView, view_in, seat_in, IsThere};

    ghost Value = { HandView };

    ghost view = { λ h. record {
      table = h.shared.now.table.shared.table_id;
      seat = seat_in h.pass;
      view = view_in h.pass;
    } };

    ghost invariant = { λ h. IsThere h.shared.now.table.shared.table_id h.pass };
}

impl<'a, B: Bucket, G: Gate, R: Wait> TurnHand<'a, B, G, R> {
    /// A hand of this pass.
    pub fn new(shared: &'a Shared<B>, gate: &'a G, rt: &'a R, pass: Pass) -> Self
        requires { table_of pass ≡ shared.now.table.shared.table_id }
        ensures pass { (result.table ≡ table_of pass) × (result.seat ≡ pass.seat)
            × (result.view ≡ view_of pass) }
    {
        TurnHand {
            shared,
            gate,
            rt,
            pass: Some(pass),
            number: 0,
        }
    }

    /// Hands the pass back.
    pub fn into_pass(self) -> Pass
        ensures { (table_of result ≡ self.entry.table) × (result.seat ≡ self.entry.seat)
            × (view_of result ≡ self.entry.view) }
    {
        let TurnHand {
            shared: _,
            gate: _,
            rt: _,
            pass,
            number: _,
        } = self;
        match pass {
            Some(pass) => pass,
            None => unreachable!(),
        }
    }
}

impl<'a, B: Bucket, G: Gate, R: Wait> Hand for TurnHand<'a, B, G, R> {
    ghost use Rattle.std.specs.Prelude.{Some};
    ghost use Rattle.phase_runner.specs.Hands.{GoesOn, goes_on-none, goes_on-more};

    ghost told = { λ hand. record {
      entries = hand.view.own;
      seat = hand.seat;
      front = Some hand.view.front;
      known = hand.view.known;
      refused = hand.view.refused;
      wanted = hand.view.wanted;
    } };

    ghost keeps = { GoesOn };

    ghost keeps_none = { goes_on-none };

    ghost keeps_more = { goes_on-more };

    fn act(&mut self, op: Op) -> Acted {
        let Some(pass) = self.pass.take() else {
            unreachable!()
        };
        self.gate.before(pass.seat(), self.number);
        let put = put_bytes(&op);
        let (acted, pass) = self.shared.act(self.rt, pass, op);
        tell_moved(self.gate, put, &acted);
        self.number = number_after(self.number, &acted);
        self.pass = Some(pass);
        acted
    }

    /// It asks no gate and waits for nobody.
    fn look(&mut self) -> u64 {
        let Some(pass) = self.pass.take() else {
            unreachable!()
        };
        let (count, pass) = self.shared.look(pass);
        self.pass = Some(pass);
        count
    }
}

/// How many operations were done, with this one.
fn number_after(number: u64, acted: &Acted) -> u64 {
    match acted {
        Acted::Done(_) => number.saturating_add(1),
        Acted::Full | Acted::NoMemory => number,
    }
}

//! How a machine is run by a hand. Here alone an activity is stopped between two operations, as a script asks for it:
//! so what a process leaves that ends in the midst of its work can be tried.

ghost use Rattle.std.specs.Prelude.{◌≡◌, ◌≢◌, List};
ghost use Rattle.bucket_core.specs.Asking.{Call};
ghost use Rattle.world_core.specs.Asking.{IsAllAsked};
ghost use Rattle.world_core.specs.Keeping.{IsFull};
ghost use Rattle.world_core.specs.Machines.{Drives, is_driven_full, is_driven_wanting};
ghost use Rattle.world_core.specs.Turning.{Turned};
ghost use Rattle.world_core.specs.Worlds.{WorldGoesOn};

use crate::{Act, Acted, Hand, Machine, World, WorldHand};
use base::NoMemory;
use bucket_core::Bucket;

/// What became of a machine that was driven.
#[derive(Drop)]
pub enum Driven<E> {
    /// It came to its end.
    Ended(E),
    /// It was stopped after the operation of this number.
    Stopped(u32),
    /// The journal took no more entries.
    Full,
    NoMemory,
}

/// Runs a machine to its end, or until as many operations are answered as `stop` says.
///
/// A stop after the last operation of a run wins over the run's end. A stop at 0 stops nothing.
pub fn drive<M: Machine, H: Hand>(
    machine: &mut M,
    hand: &mut H,
    stop: Option<u32>,
) -> Driven<M::End>
    requires { M.fresh machine.old }
    ensures run { Drives (λ made end. M.may machine.old made end machine.new)
        (H.told hand.old).seat stop result (H.told hand.old).entries (H.told hand.new).entries }
    ensures hand { Turned H.told H.keeps hand.old hand.new (is_driven_full result)
        (is_driven_wanting result) }
{
    let mut op = match machine.first() {
        Ok(Act::Do(op)) => op,
        Ok(Act::Done(end)) => return Driven::Ended(end),
        Err(NoMemory) => return Driven::NoMemory,
    };
    let last = stop.unwrap_or(0);
    let mut answered = 0u32;
    'turns: loop {
        let seen = match hand.act(op) {
            Acted::Done(seen) => seen,
            Acted::Full => return Driven::Full,
            Acted::NoMemory => return Driven::NoMemory,
        };
        answered = answered.saturating_add(1);
        if answered == last {
            return Driven::Stopped(last);
        }
        op = match machine.step(seen) {
            Ok(Act::Do(next)) => next,
            Ok(Act::Done(end)) => return Driven::Ended(end),
            Err(NoMemory) => return Driven::NoMemory,
        };
    }
}

/// Drives a machine over a world from one seat, and hands the world back.
#[tactic(auto, using(crate::proofs::Turning::not_wanted, crate::proofs::Turning::driven_to_full))]
pub fn drive_over<M: Machine, B: Bucket>(
    machine: &mut M,
    world: World<B>,
    seat: u32,
    stop: Option<u32>,
) -> (Driven<M::End>, World<B>)
    requires { M.fresh machine.old }
    ensures run { Drives
        (λ made end. M.may machine.old made end machine.new) seat stop result.0 world.journal
        result.1.journal }
    ensures keeps { WorldGoesOn B.told world result.1 }

    // If all that the bucket was asked was journaled, it still is, unless memory was wanted.
    ensures all { result.0 ≢ Driven.NoMemory → (before : List Call)
        → IsAllAsked B.told before world → IsAllAsked B.told before result.1 }
    ensures full { result.0 ≡ Driven.Full → IsFull result.1.journal }
{
    let mut hand = WorldHand::new(world, seat);
    let driven = drive(machine, &mut hand, stop);
    (driven, hand.into_world())
}

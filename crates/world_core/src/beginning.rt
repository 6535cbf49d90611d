//! The drive of a machine that was to be begun. Where memory is wanting as it begins, nothing is done.

ghost use Rattle.std.specs.Prelude.{IfOk};
ghost use Rattle.world_core.specs.Begun.{DrivesBegun};
ghost use Rattle.world_core.specs.Machines.{is_driven_full, is_driven_wanting};
ghost use Rattle.world_core.specs.Turning.{Turned};

use crate::{Driven, Hand, Machine, drive};
use base::NoMemory;

/// Drives a machine that was begun, and stops it after so many operations if it is told to. Where memory was wanting as it was
/// begun, nothing is done.
pub fn run_begun<M: Machine + Drop, H: Hand>(
    begun: Result<M, NoMemory>,
    stop: Option<u32>,
    hand: &mut H,
) -> Driven<M::End>
    requires { IfOk begun M.fresh }
    ensures run { DrivesBegun M.may begun (H.told hand.old).seat stop result
        (H.told hand.old).entries (H.told hand.new).entries }
    ensures hand { Turned H.told H.keeps hand.old hand.new (is_driven_full result)
        (is_driven_wanting result) }
{
    match begun {
        Ok(mut machine) => {
            let driven = drive(&mut machine, hand, stop);
            drop(machine);
            driven
        }
        Err(NoMemory) => Driven::NoMemory,
    }
}

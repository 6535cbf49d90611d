//! What drives come to that may be stopped.

ghost use Rattle.std.specs.Prelude.{◌≡◌};
ghost use Rattle.script_running.specs.Drives.{stop_of};

use crate::{Broken, Stop};
use world_core::Driven;

/// What came first of an activity that was driven, if nothing broke it off.
pub(crate) fn stop_of<E: Drop>(driven: Driven<E>) -> Result<Stop<E>, Broken>
    ensures { result ≡ stop_of driven }
{
    match driven {
        Driven::Ended(end) => Ok(Stop::Ended(end)),
        Driven::Stopped(count) => Ok(Stop::At(count)),
        Driven::Full => Err(Broken::Full),
        Driven::NoMemory => Err(Broken::NoMemory),
    }
}

ghost use Rattle.std.specs.Prelude.{◌≡◌, ◌≤◌, ◌++◌, List, ℕ, option_map, OnOk, OnErr};
ghost use Rattle.bucket_core.specs.Causes.{Rose};
ghost use Rattle.call_verdicts.specs.Output.{IsWrittenInPart};

use base::members_behind;
use bucket_core::{Sink, WriteAnswer};

/// The sink failed.
#[derive(Clone, Copy, Debug, PartialEq, Eq)]
pub struct SinkFault;

/// Writes all of the text, piece by piece.
pub fn write_all<K: Sink>(out: &mut K, text: &[u8]) -> Result<(), SinkFault>
    ensures whole { OnOk result
        ((K.told out.new).written
        ≡ option_map (λ before. before ++ text.now) (K.told out.old).written) }
    ensures part { OnErr result
        (IsWrittenInPart text.now (K.told out.old).written (K.told out.new).written) }
    ensures later { (K.told out.old).faults ≤ (K.told out.new).faults }
    ensures cause { OnErr result (Rose (K.told out.old).faults (K.told out.new).faults) }
{
    let mut left = text;
    while !left.is_empty() {
        match out.write(left) {
            WriteAnswer::Took(count) => left = members_behind(left, count),
            WriteAnswer::Failed => return Err(SinkFault),
        }
    }
    Ok(())
}

ghost use Rattle.std.specs.Prelude.{◌≡◌, ◌≢◌, ◌≤◌, ◌<◌, ◌++◌, [], List, ℕ, Option, Some, Err, IfOk, IfSome, length, option_map};
ghost use Rattle.bucket_core.specs.Causes.{Rose};
ghost use Rattle.script_fields.specs.Limits.{longest_text};

use crate::InputRefusal;
use bucket_core::{ReadAnswer, Source};
use script_core::LONGEST_TEXT;
use std::alloc::{AllocError, Global};

const PIECE: usize = 65_536;

/// Reads a source to its end, or to the first byte past the limit.
pub fn read_all<R: Source>(alloc: Global, source: &mut R) -> Result<Vec<u8>, InputRefusal>
    ensures whole { IfOk result
        (λ bytes. IfSome (R.told source.old).left
        (λ all. (bytes.items ≡ all) × ((R.told source.new).left ≡ Some []))) }
    ensures small { IfOk result (λ bytes. length bytes.items ≤ longest_text) }
    ensures long { result ≡ Err InputRefusal.TooLong
        → IfSome (R.told source.old).left (λ all. longest_text < length all) }
    ensures later { (R.told source.old).faults ≤ (R.told source.new).faults }
    ensures cause { result ≡ Err InputRefusal.Fault
        → Rose (R.told source.old).faults (R.told source.new).faults }
    ensures only { result ≢ Err InputRefusal.Fault
        → (R.told source.new).faults ≡ (R.told source.old).faults }
{
    let mut bytes = Vec::new(alloc);
    let mut piece = zeros(alloc, PIECE)?;
    // each turn takes one byte at least
    while bytes.len() <= LONGEST_TEXT {
        match source.read(&mut piece) {
            ReadAnswer::Got(0) => return Ok(bytes),
            ReadAnswer::Got(count) => bytes.extend_from_slice(&piece[..count])?,
            ReadAnswer::Failed => return Err(InputRefusal::Fault),
        }
    }
    Err(InputRefusal::TooLong)
}

fn zeros(alloc: Global, count: usize) -> Result<Vec<u8>, AllocError>
    ensures { IfOk result (λ bytes. length bytes.items ≡ count) }
{
    vec![in alloc; 0u8; count]
}

//! An upload, begun and driven through a hand.

ghost use Rattle.std.specs.Prelude.{ℕ};
ghost use Rattle.block_keys.specs.Blocks.{IsBlock};
ghost use Rattle.world_core.specs.Machines.{Drives, is_driven_full, is_driven_wanting};
ghost use Rattle.world_core.specs.Turning.{Turned};
ghost use Rattle.world_core.specs.Plans.{Runs};
ghost use Rattle.shipper.specs.Uploads.{upload};

use crate::{Upload, UploadEnd};
use block_keys::ObjectList;
use world_core::{Driven, Hand, run_begun};

/// Ships a block's objects, and stops after so many operations if it is told to.
pub fn run_upload<H: Hand>(
    objects: ObjectList,
    stop: Option<u32>,
    hand: &mut H,
) -> Driven<UploadEnd>
    requires { (ulid : ℕ) × IsBlock ulid objects }
    ensures run { (ulid : ℕ) → IsBlock ulid objects → Drives (Runs (upload ulid objects))
        (H.told hand.old).seat stop result (H.told hand.old).entries (H.told hand.new).entries }
    ensures hand { Turned H.told H.keeps hand.old hand.new (is_driven_full result)
        (is_driven_wanting result) }
{
    run_begun(Upload::start(objects), stop, hand)
}

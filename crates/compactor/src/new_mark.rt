//! The texts of new deletion marks.
ghost use Rattle.std.specs.Prelude.{◌≡◌, ◌<◌, IfOk};
ghost use Rattle.ulid_core.specs.Limits.{ulid_time_limit};
ghost use Rattle.compactor.specs.NewMarks.{new_mark_text};

use base::NoMemory;
use block_meta::DeletionMark;
use label_sets::Text;
use moment_core::{Moment, SECOND};
use std::alloc::Global;
use ulid_core::Ulid;
use wire_bytes::Blob;

/// The text of the mark of a block that was found without one at a moment.
pub(crate) fn new_mark(
    alloc: Global,
    ulid: Ulid,
    looked: Moment,
    details: &str,
) -> Result<Blob, NoMemory>
    requires { looked.ms < ulid_time_limit }
    ensures { IfOk result (λ text. text ≡ new_mark_text ulid looked details.now) }
{
    let mark = DeletionMark {
        id: ulid,
        deletion_time: looked.ms / SECOND,
        details: Text::from_str(alloc, details)?,
    };
    mark.write(alloc)
}

ghost use Rattle.std.specs.Prelude.{◌≡◌};
ghost use Rattle.cleaner.specs.Marks.{is_old_mark as is_old, is_old_block as is_past};
ghost use Rattle.block_meta.specs.MetaFields.{mark_fields_of};

use block_meta::DeletionMark;
use moment_core::{Moment, SECOND, Span};
use ulid_core::Ulid;

/// Tells whether a mark that was read at that moment is older than the delay. A mark counts from its second on.
pub(crate) fn is_old_mark(mark: &DeletionMark, read: Moment, delay: Span) -> bool
    ensures { result ≡ is_old (mark_fields_of mark.now) read delay }
{
    read.ms.saturating_sub(mark.deletion_time * SECOND) > delay.ms
}

/// Tells whether a block of that name is older than the delay at a moment.
pub(crate) fn is_old_block(ulid: Ulid, moment: Moment, delay: Span) -> bool
    ensures { result ≡ is_past ulid moment delay }
{
    moment.ms.saturating_sub(ulid.time()) > delay.ms
}

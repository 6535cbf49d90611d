ghost use Rattle.std.specs.Prelude.{◌≡◌};
ghost use Rattle.sync_filters.specs.Filters.{is_unmarked};

use crate::Found;
use moment_core::{SECOND, Span};

/// Tells whether a block's deletion mark is still to be passed over, as it is while it is not older than the delay.
/// A mark counts from its second on.
pub fn unmarked(found: &Found, delay: Span) -> bool
    ensures { result ≡ is_unmarked found.now delay }
{
    match &found.mark {
        Some(mark) => {
            let age = found
                .mark_read
                .ms
                .saturating_sub(mark.deletion_time * SECOND);
            age <= delay.ms
        }
        None => true,
    }
}

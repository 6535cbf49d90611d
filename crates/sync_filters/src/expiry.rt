ghost use Rattle.std.specs.Prelude.{◌≡◌, ◌+ℤ◌, pos};
ghost use Rattle.sync_filters.specs.Filters.{is_expired as has_expired};

use block_meta::Meta;
use moment_core::{Moment, Span};

/// Tells whether a block is past its retention: one is set, no sample of the block was dropped, and the moment is more than the
/// retention after the block's end.
pub fn is_expired(meta: &Meta, retention: Option<Span>, moment: Moment) -> bool
    ensures { result ≡ has_expired meta.now retention moment }
{
    match retention {
        Some(span) => meta.resolution == 0 && kept_until(meta, span.ms) < i128::from(moment.ms),
        None => false,
    }
}

/// The last millisecond at which a block is kept whose retention is so many milliseconds.
fn kept_until(meta: &Meta, ms: u64) -> i128
    ensures { result ≡ meta.now.max_time +ℤ pos ms }
{
    i128::from(meta.max_time) + i128::from(ms)
}

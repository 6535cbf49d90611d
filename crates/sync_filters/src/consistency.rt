ghost use Rattle.std.specs.Prelude.{◌≡◌, ◌+◌, nat_le};
ghost use Rattle.sync_filters.specs.Filters.{is_late_source as is_late, is_consistent};

use crate::Found;
use moment_core::Span;

/// Tells whether a block is old enough to be looked at. A block of a compactor is at any age, for its meta is put last.
pub fn consistent(found: &Found, delay: Span) -> bool
    ensures { result ≡ is_consistent found.now delay }
{
    is_old(found.ulid.time(), delay.ms, found.meta_read.ms)
        || is_late_source(found.meta.source.as_str())
}

/// Whether a delay has passed since a moment, all in milliseconds.
fn is_old(since: u64, delay: u64, now: u64) -> bool
    ensures { result ≡ nat_le (since + delay) now }
{
    since <= now && delay <= now - since
}

/// Whether a program of this name writes a block's objects all at one time.
fn is_late_source(source: &str) -> bool
    ensures { result ≡ is_late source.now }
{
    source == "compactor" || source == "compactor.repair" || source == "bucket.repair"
}

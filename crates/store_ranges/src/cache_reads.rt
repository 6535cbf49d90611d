//! Ranges that the cache has, and those that it is to have.
ghost use Rattle.std.specs.Prelude.{◌≡◌, IfOk, OnOk};
ghost use Rattle.store_ranges.specs.Caches.{held};
ghost use Rattle.store_ranges.specs.Asking.{piece_of};
ghost use Rattle.store_ranges.specs.Reads.{range_of, kept};
ghost use Rattle.store_ranges.specs.Caching.{IsFromCache};

use crate::{ByteRange, IndexCache};
use base::{NoMemory, TryCopy};
use block_keys::Key;
use wire_bytes::Blob;

/// A copy of what the cache has of a range, which then counts as the one that was used last.
pub fn from_cache(
    cache: &mut IndexCache,
    key: Key,
    range: ByteRange,
) -> Result<Option<Blob>, NoMemory>
    ensures { IfOk result
        (λ found. IsFromCache (range_of key (piece_of range)) (held cache.old) found
        (held cache.new)) }
{
    match cache.get(key, range.from, range.len) {
        Some(bytes) => Ok(Some(bytes.copy()?)),
        None => Ok(None),
    }
}

/// Keeps a copy of the bytes that were read of a range.
pub fn keep(
    cache: &mut IndexCache,
    key: Key,
    range: ByteRange,
    bytes: &Blob,
) -> Result<(), NoMemory>
    ensures { OnOk result
        (held cache.new ≡ kept (range_of key (piece_of range)) bytes.now (held cache.old)) }
{
    let copied = bytes.copy()?;
    cache.keep(key, range.from, range.len, copied)
}

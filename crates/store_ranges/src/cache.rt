ghost use Rattle.std.specs.Prelude.{◌≡◌, ◌≤◌, [], IfOk, OnOk, OnErr, IsOk, IsSome};
ghost use Rattle.std.specs.Option.{option_copied};
ghost use Rattle.std.specs.Borrow.{sem};
ghost use Rattle.std.specs.Map.{lookup};
ghost use Rattle.lru.specs.LruCache.{lru_cache, promoted, put_entries};
ghost use Rattle.store_ranges.specs.Lends.{EndsAs};
ghost use Rattle.store_ranges.specs.Caches.{held, range, same_range};

use crate::range::Range;
use base::{NoMemory, TryCopy};
use block_keys::Key;
use lru::LruCache;
use std::alloc::Global;
use std::num::NonZeroUsize;
use wire_bytes::Blob;

/// The ranges that were kept or taken last, with their bytes.
#[derive(Drop)]
pub struct IndexCache {
    cache: LruCache<Range, Blob>,
}

impl IndexCache {
    /// An empty cache of so many ranges.
    pub fn new(alloc: Global, capacity: usize) -> Result<IndexCache, NoMemory>
        requires { 1 ≤ capacity }
        ensures { IfOk result (λ cache. held cache ≡ lru_cache [] capacity) }
    {
        let capacity = NonZeroUsize::new(capacity).unwrap();
        let cache = LruCache::new(alloc, capacity)?;
        Ok(IndexCache { cache })
    }

    /// A copy, which has the same ranges with the same bytes, in the same order.
    pub fn copy(&self, alloc: Global) -> Result<IndexCache, NoMemory>
        ensures { IfOk result (λ copied. held copied ≡ held self.now) }
    {
        let _count = self.cache.len();
        let mut cache = LruCache::new(alloc, self.cache.cap())?;
        let mut left = self.cache.iter();
        while let Some((range, bytes)) = left.next_back() {
            cache.put(*range, bytes.copy()?)?;
        }
        Ok(IndexCache { cache })
    }

    /// Lends the bytes of a range, which then counts as the one that was used last. No other range answers for it.
    pub fn get(&mut self, key: Key, from: u64, len: u64) -> Option<&Blob>
        ensures value { option_copied result
            ≡ lookup (same_range (range key from len)) (held self.old).entries }
        ensures* left { sem 𝓛 (EndsAs self.entry
            (promoted (same_range (range key from len)) (held self.old).entries)) }
    {
        let range = Range { key, from, len };
        self.cache.get(&range)
    }

    /// Keeps the bytes of a range, which then counts as the one that was used last. A full cache forgets the range that
    /// was not used for the longest time.
    pub fn keep(&mut self, key: Key, from: u64, len: u64, bytes: Blob) -> Result<(), NoMemory>
        ensures ok { OnOk result (held self.new ≡ lru_cache
            (put_entries same_range (held self.old) (range key from len) bytes)
            (held self.old).cap) }
        ensures err { OnErr result (held self.new ≡ held self.old) }

        // What is there already is replaced without memory.
        ensures again { IsSome (lookup (same_range (range key from len)) (held self.old).entries)
            → IsOk result }
    {
        self.cache.put(Range { key, from, len }, bytes)?;
        Ok(())
    }
}

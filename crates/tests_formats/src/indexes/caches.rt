use crate::says::{cut_at, put, say};
use block_keys::Key;
use std::str;
use store_ranges::IndexCache;
use ulid_core::Ulid;
use wire_bytes::Blob;

/// Makes the calls of a row on a cache of so many ranges, and prints what is got, each behind a blank. `RANGE=BYTES` keeps bytes
/// and `RANGE` gets them, and a range is a letter, which stands for the index of a block, and two digits: its place and its
/// length.
pub(crate) fn print_cache(rt: &HostRuntime, capacity: &str, calls: &str) {
    if let Ok(mut cache) = IndexCache::new(rt.alloc(), capacity.parse().unwrap_or(1).max(1)) {
        put(rt, "got");
        for call in calls.split(' ') {
            do_call(rt, &mut cache, call);
        }
        say(rt, "");
        drop(cache);
    }
}

fn do_call(rt: &HostRuntime, cache: &mut IndexCache, call: &str) {
    let (range, bytes) = cut_at(call, '=');
    let [letter, from, len] = range.as_bytes() else {
        return put(rt, " no range");
    };
    let key = Key::Index(Ulid::from_parts(0, u128::from(*letter)));
    let (from, len) = (u64::from(*from & 15), u64::from(*len & 15));
    if bytes.is_empty() {
        put(rt, " ");
        match cache.get(key, from, len) {
            Some(bytes) => put(rt, str::from_utf8(bytes.bytes()).unwrap_or("no text")),
            None => put(rt, "none"),
        }
    } else if let Ok(bytes) = Blob::from_bytes(rt.alloc(), bytes.as_bytes()) {
        let _ = cache.keep(key, from, len, bytes);
    }
}

//! The tool over a bucket in memory that holds an object from the start.
ghost use Rattle.std.specs.Prelude.{◌≡◌};
ghost use Rattle.bucket_core.specs.Contents.{IsKey};
ghost use Rattle.bucket_core.specs.MemoryBucket.{faults_counted};

use crate::folders::calls::is_key;
use crate::folders::runs::print_ended;
use crate::says::say;
use crate::setting::CALM;
use crate::tool::end_of;
use bucket_core::{Bucket, FailList, FileList, MemoryBucket, MemoryShelf, MemorySite};
use phase_runner::Open;
use std::alloc::Global;
use std::sync::Wait;
use std::thread::Threads;
use wire_bytes::Blob;

/// Prints the status and the text of the empty script over a bucket that holds one object, under this key.
pub(crate) fn print_over_object<R: Threads + Wait + Sync>(
    threads: &R,
    rt: &HostRuntime,
    key: &str,
) {
    if !is_key(key) {
        return say(rt, "no key");
    }
    let bucket = bucket_with(rt.alloc(), key);
    let shelf = MemoryShelf::new(rt.alloc(), FileList::new(rt.alloc()));
    let mut site = MemorySite::new(bucket, shelf, false);
    let words = ("serial", "memory none");
    let ended = end_of(
        threads,
        words,
        &mut site,
        Vec::new(rt.alloc()),
        &CALM,
        &Open,
    );
    drop(site);
    print_ended(rt, &ended, None);
    drop(ended);
}

/// A bucket that holds one byte under this key, where there is memory for it.
fn bucket_with(alloc: Global, key: &str) -> MemoryBucket
    requires { IsKey key.now }
    ensures { faults_counted result ≡ 0 }
{
    let mut bucket = MemoryBucket::new(alloc, FailList::new(alloc));
    if let Ok(byte) = Blob::from_bytes(alloc, b"x") {
        let _ = bucket.put(key, &byte);
    }
    bucket
}

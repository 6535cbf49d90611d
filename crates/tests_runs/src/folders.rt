//! Calls on a bucket and a shelf in one real folder and on a bucket in memory, and whole runs over other folders and over a shelf in
//! memory. What is to be printed was worked out by hand; what a server's blocks hold was told by Prometheus' own reader.

mod calls;
mod memory_shelf;
mod occupied;
mod runs;

use crate::says::{put, show};
use bucket_core::Site;
pub(crate) use calls::{Folder, print_call};

/// The folder of all calls, below the one in which the program runs.
const FOLDER: &str = "made/bucket";

/// Prints which buckets and shelves are opened, before the folder is there and beside it.
pub(crate) fn print_openings<S: Site>(rt: &HostRuntime, site: &mut S)
where
    S::Store: Drop,
    S::Files: Drop,
{
    put(rt, "a shelf before its folder: ");
    let opened = site.open_shelf(FOLDER);
    let is_open = opened.is_ok();
    drop(opened);
    show(rt, &is_open);
    put(rt, "a bucket without a name: ");
    show(rt, &opens_bucket(site, ""));
    put(rt, "a bucket in no folder of files: ");
    show(rt, &opens_bucket(site, "/proc/none"));
    put(rt, "a bucket in memory: ");
    show(rt, &opens_bucket(site, "memory"));
}

/// Whether a site opens a bucket of that name, which is let go again.
fn opens_bucket<S: Site>(site: &mut S, name: &str) -> bool
where
    S::Store: Drop,
{
    let opened = site.open_bucket(name);
    let is_open = opened.is_ok();
    drop(opened);
    is_open
}

pub(crate) fn open_both<S: Site>(site: &mut S) -> Option<Folder<S::Store, S::Files>>
where
    S::Store: Drop,
    S::Files: Drop,
{
    let bucket = site.open_bucket(FOLDER).ok()?;
    let Some(shelf) = site.open_shelf(FOLDER).ok() else {
        drop(bucket);
        return None;
    };
    let Some(memory) = site.open_bucket("memory").ok() else {
        drop(bucket);
        drop(shelf);
        return None;
    };
    Some(Folder {
        bucket,
        shelf,
        memory,
    })
}

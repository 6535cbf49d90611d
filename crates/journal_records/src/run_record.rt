use wire_bytes::Blob;
use world_core::Journal;

/// How many bytes a record has at most, which are 256 MiB.
pub const MOST_BYTES: u64 = 268_435_456;

/// What a run did: the script that it was given, and its journal.
#[derive(Drop)]
pub struct Record {
    pub script: Blob,
    pub journal: Journal,
}

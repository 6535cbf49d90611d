use bucket_core::{Bucket, MemoryBucket};
use run_notes::RunNote;
use world_core::Journal;

/// What a call of the program leaves.
#[derive(Drop)]
pub struct Run<B: Bucket, F> {
    /// The number of its status.
    pub status: u8,
    /// The journal of the bucket's operations, where the site handed out a bucket.
    pub journal: Option<Journal>,
    /// The bucket, where the site handed one out.
    pub store: Option<B>,
    /// The shelf, where the site handed one out.
    pub shelf: Option<F>,
    /// What the operations of its run were answered, where one began.
    pub note: Option<RunNote<B>>,
    /// What the operations of a generated day were answered, where one was run. Its bucket is its own.
    pub day: Option<RunNote<MemoryBucket>>,
}

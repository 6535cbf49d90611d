/// How a compaction ended.
#[derive(Clone, Copy, Debug, PartialEq, Eq)]
pub enum CompactEnd {
    /// So many covered blocks were marked, so many groups had a plan and were compacted, and so many expired blocks were marked.
    Done {
        collected: u64,
        compacted: u64,
        expired: u64,
    },
    /// The entry of this number was answered that the call failed.
    Fault(u64),
    /// The index or the segment that was read at the entry of this number was not there.
    Missing(u64),
    /// What was read at the entry of this number is not as it may be, or the new block stood already.
    Damaged(u64),
    /// The bucket has a million names and more.
    TooMany,
    /// The index of a new block would be longer than an index may be.
    TooLarge,
}

/// What an entry breaks.
#[derive(Clone, Copy, Debug, PartialEq, Eq)]
pub enum BreachRule {
    /// The bucket shows what stands.
    Bucket,
    /// A block is uploaded in time.
    UploadTime,
    /// A block is marked in time.
    MarkTime,
    /// A sync reads in time.
    SyncTime,
    /// A view is read in time.
    ViewTime,
    /// A compaction reads in time.
    ReadTime,
}

/// The first entry of a journal that a rule refuses.
#[derive(Clone, Copy, Debug, PartialEq, Eq)]
pub struct Breach {
    pub rule: BreachRule,
    /// The entry's number.
    pub entry: u64,
    /// What it shows, or the number that is too great.
    pub found: u64,
    /// What it owes, or the greatest number that is allowed.
    pub allowed: u64,
}

/// The first rule that refuses an entry, and its two numbers.
#[derive(Clone, Copy, Debug, PartialEq, Eq)]
pub(crate) struct Refusal {
    pub(crate) rule: BreachRule,
    pub(crate) found: u64,
    pub(crate) allowed: u64,
}

/// How the check of a block ended.
#[derive(Clone, Copy, Debug, PartialEq, Eq)]
pub enum CheckOutcome {
    /// The block may be shipped. It has so many series, and so many samples.
    Passed(u64, u64),
    /// The block may not be shipped. This is the number of the cause.
    Refused(u8),
}

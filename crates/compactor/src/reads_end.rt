use crate::input::InputList;
use moment_core::Moment;

/// How the reads of blocks ended.
#[derive(Drop)]
pub enum ReadsEnd {
    Done(Gathered),
    /// The entry of this number was answered that the call failed.
    Fault(u64),
    /// The object that was read at the entry of this number was not there.
    Missing(u64),
    /// The index that was read at the entry of this number is not as it may be.
    Damaged(u64),
}

/// Blocks that were read, with the number and the moment of the last entry.
#[derive(Drop)]
pub struct Gathered {
    pub inputs: InputList,
    pub number: u64,
    pub moment: Moment,
}

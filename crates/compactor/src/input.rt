use base::List;
use block_meta::Meta;
use wire_bytes::Blob;

/// An object that was read.
#[derive(Drop)]
pub struct Read {
    /// The number of the read's entry.
    pub(crate) number: u64,
    pub(crate) bytes: Blob,
}

/// Objects that were read.
pub type ReadList = List<Read>;

/// A block as it was read whole.
#[derive(Drop)]
pub struct Input {
    /// What the sync found.
    pub(crate) meta: Meta,
    pub(crate) index: Read,
    /// The segments of chunks, numbered from 1.
    pub(crate) segments: ReadList,
}

/// Blocks that were read.
pub type InputList = List<Input>;

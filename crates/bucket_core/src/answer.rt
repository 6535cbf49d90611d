//! What the outside answers. A put or a deletion that failed may have landed all the same, as over a network, so
//! whoever hears of a failure knows nothing of what stands.

use label_sets::TextList;
use wire_bytes::Blob;

/// What a put is answered.
#[derive(Clone, Copy, Debug, PartialEq, Eq)]
pub enum PutAnswer {
    Stored,
    /// The call failed; the flag says whether the object stands all the same.
    Failed(bool),
    NoMemory,
}

/// What a get, or a get of a range, is answered.
#[derive(Drop)]
pub enum GetAnswer {
    Found(Blob),
    Absent,
    Failed,
    NoMemory,
}

/// What a deletion is answered. The deletion of an absent object answers `Deleted`.
#[derive(Clone, Copy, Debug, PartialEq, Eq)]
pub enum DeleteAnswer {
    Deleted,
    /// The call failed; the flag says whether the object is gone all the same.
    Failed(bool),
}

/// What a request for a page of names is answered.
#[derive(Drop)]
pub enum PageAnswer {
    Names(TextList),
    Failed,
    NoMemory,
}

/// What the reading of a file is answered.
#[derive(Drop)]
pub enum ShelfAnswer {
    Found(Blob),
    Absent,
    /// The file is longer than a file of a block may be.
    TooLarge,
    Failed,
    NoMemory,
}

/// What a read is answered: how many bytes were put at the front of the buffer, where 0 is the end.
#[derive(Clone, Copy, Debug, PartialEq, Eq)]
pub enum ReadAnswer {
    Got(usize),
    Failed,
}

/// What a write is answered: how many bytes were taken from the front of the piece.
#[derive(Clone, Copy, Debug, PartialEq, Eq)]
pub enum WriteAnswer {
    Took(usize),
    Failed,
}

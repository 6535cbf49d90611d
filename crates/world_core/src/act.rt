use crate::{Op, Seen};

/// What became of an operation that was asked for.
#[derive(Drop)]
pub enum Acted {
    /// It was done and journaled.
    Done(Seen),
    /// The journal takes no more entries, and nothing was done.
    Full,
    NoMemory,
}

/// What a machine does next: it asks for an operation, or it has come to its end.
#[derive(Drop)]
pub enum Act<E> {
    Do(Op),
    Done(E),
}

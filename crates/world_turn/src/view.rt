use std::collections::LinkedList;
use std::marker::Model;
use world_core::Entry;

/// What a pass knows. No value of it is made: it exists in proofs alone.
pub struct View {
    /// False once the pass was joined.
    pub live: bool,
    pub seat: u32,
    /// The entries that it made.
    pub own: LinkedList<Entry>,
    /// A front of the journal that it has seen.
    pub front: LinkedList<Entry>,
    /// The journal has at least so many entries.
    pub known: u64,
    /// Whether it holds the turn, and the journal that it then holds.
    pub holds: bool,
    pub held: LinkedList<Entry>,
    /// Whether an operation of its own, or of a pass that was joined to it, was answered that the journal is full.
    pub refused: bool,
    /// Whether memory was wanted in an operation of its own, or of a pass that was joined to it.
    pub wanted: bool,
    /// While it holds the turn: whether memory was wanted before, in an operation of any pass.
    pub held_wanted: bool,
    /// How many milliseconds an operation takes.
    pub tick: u64,
    /// How often the bucket had failed when the world was opened.
    pub faults: u64,
    /// What the bucket had been asked then.
    pub asked: Asked,
    /// Of the root: how many seats there are, and what each joined pass had made.
    pub seats: u64,
    pub joined: LinkedList<(u32, LinkedList<Entry>)>,
    /// A front that was taken in and is not yet compared.
    pub beside: LinkedList<Entry>,
}

/// The calls of a bucket, where it tells them. No value of it is made.
pub struct Asked {}

impl Model for Asked {
    ghost use Rattle.std.specs.Prelude.{List, Option, None};
    ghost use Rattle.bucket_core.specs.Asking.{Call};

    ghost Value = { Option (List Call) };

    ghost view = { λ asked. None };
}

ghost use Rattle.std.specs.Prelude.{◌≡◌};
ghost use Rattle.world_core.specs.Keeping.{bytes_put};

use world_core::{Acted, Op, Reply};

/// What goes along with a run from outside of it. It is asked before each operation of a worker in a thread, and may hold that one up, and with
/// it those that its thread does afterwards. And it is told how far the run is.
pub trait Gate {
    /// The seat has done so many operations, and is about to ask for the next.
    fn before(&self, seat: u32, number: u64);

    /// The phase at a place begins, of so many.
    fn begins(&self, _place: usize, _count: usize) {}

    /// An operation was done. So many bytes of an object went to the bucket or came from it.
    fn moved(&self, _bytes: u64) {}

    /// No phase is begun any more.
    fn ends(&self) {}
}

/// Holds nobody up.
#[derive(Clone, Copy)]
pub struct Open;

impl Gate for Open {
    fn before(&self, _seat: u32, _number: u64) {}
}

/// How many bytes of an object an operation brings to the bucket.
pub fn put_bytes(op: &Op) -> u64
    ensures { result ≡ bytes_put op.now }
{
    match op {
        Op::Put(_, bytes) => bytes.bytes().len() as u64,
        _ => 0,
    }
}

/// Tells a gate of an operation, which brought so many bytes to the bucket, if it was done.
pub fn tell_moved<G: Gate>(gate: &G, put: u64, acted: &Acted) {
    if let Acted::Done(seen) = acted {
        gate.moved(put.saturating_add(found_bytes(&seen.reply)));
    }
}

/// How many bytes of an object a reply has.
fn found_bytes(reply: &Reply) -> u64 {
    match reply {
        Reply::Found(bytes) => bytes.bytes().len() as u64,
        _ => 0,
    }
}

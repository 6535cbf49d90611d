//! Memory for threads, as the C library keeps it: where room was made once, threads seldom ask the system for more, for which
//! they would wait on each other. Where a block can't be had, all is as it was.

use phase_runner::Gate;
use std::alloc::Global;

const MEBIBYTE: usize = 1_048_576;

/// Blocks that are smaller than this come from an area, and mostly stay in it, once one of this size was given back. Of much larger ones
/// the C library takes no notice.
const KEPT: usize = 31 * MEBIBYTE;

/// By so much a thread's area grows at once.
const ROOM: usize = 30 * MEBIBYTE;

/// A worker of so few operations needs no room, as one that uploads a block.
const FEW: u64 = 8;

/// Holds nobody up, but makes room for a worker of many operations in the area of its thread. What it is told it tells another gate.
#[derive(Drop)]
pub(crate) struct WithRoom<'a, G> {
    alloc: Global,
    other: &'a G,
}

impl<'a, G: Gate> WithRoom<'a, G> {
    /// From now on freed memory stays with the program.
    pub(crate) fn new(alloc: Global, other: &'a G) -> WithRoom<'a, G> {
        take_and_give_back(alloc, KEPT);
        WithRoom { alloc, other }
    }
}

impl<'a, G: Gate> Gate for WithRoom<'a, G> {
    fn before(&self, _seat: u32, number: u64) {
        if number == FEW {
            take_and_give_back(self.alloc, ROOM);
        }
    }

    fn begins(&self, place: usize, count: usize) {
        self.other.begins(place, count);
    }

    fn moved(&self, bytes: u64) {
        self.other.moved(bytes);
    }

    fn ends(&self) {
        self.other.ends();
    }
}

/// Takes a block of so many bytes, if it can be had, and gives it back untouched.
///
/// What a thread takes comes from an area of its own. It grows by a page or two at a time, each time by a call to the system;
/// and what is freed at its end goes back to the system. A large block that is taken and given back at once changes both: the
/// area has grown by as much in one call, and what is freed mostly stays with the program from then on.
fn take_and_give_back(alloc: Global, bytes: usize) {
    drop(Vec::<u8>::with_capacity(alloc, bytes));
}

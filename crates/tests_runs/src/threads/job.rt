//! Jobs for tests of threads: each asks for operations of one kind over and over, and counts what it was answered.

ghost use Rattle.std.specs.Prelude.{◌≡◌, IsTrue, false};
ghost use Rattle.world_core.specs.Machines.{is_full, is_wanting};
ghost use Rattle.world_core.specs.Operations.{IsLawful};

use crate::threads::met::Met;
use block_keys::Key;
use phase_runner::Job;
use std::alloc::Global;
use ulid_core::Ulid;
use wire_bytes::Blob;
use world_core::{Acted, Hand, Op, Reply};

/// What a worker asks for.
#[derive(Clone, Copy)]
pub enum Asks {
    /// Reads of the byte at each place of an object that does not stand there.
    Reads,
    /// Puts of one empty object.
    Puts,
}

/// The read of the byte at a place of an object that does not stand there.
pub fn read_at(place: u64) -> Op
    ensures { IsLawful result }
{
    Op::GetRange(Key::Index(Ulid::from_parts(0, 0)), place, 1)
}

fn op_at(alloc: Global, asks: Asks, place: u64) -> Op
    ensures { IsLawful result }
{
    match asks {
        Asks::Reads => read_at(place),
        Asks::Puts => Op::Put(
            Key::Index(Ulid::from_parts(0, 0)),
            Blob::from_vec(Vec::new(alloc)),
        ),
    }
}

/// A job that asks so many times, and ends with the first operation that fails.
#[derive(Drop)]
pub struct Calls {
    pub alloc: Global,
    pub asks: Asks,
    pub count: u64,
}

/// How many operations of a job did not fail, and what it met.
#[derive(Drop)]
pub struct CallsEnd {
    pub done: u64,
    pub met: Met,
}

impl Job for Calls {
    ghost use Rattle.std.specs.Prelude.{ℕ, List, Option};
    ghost use Rattle.world_core.specs.declared.entry.Entry.{Entry};

    type End = CallsEnd;

    ghost may = { λ job seat made front end. Unit {0} };

    ghost met_full = { λ end. end.met.full };

    ghost wanted = { λ end. end.met.wanted };

    fn weight(&self) -> u64 {
        u64::MAX
    }

    fn run<H: Hand>(self, hand: &mut H) -> CallsEnd {
        let count = self.count;
        let mut done = 0u64;
        for place in 0..count {
            let op = op_at(self.alloc, self.asks, place);
            let acted = hand.act(op);
            if !is_done(self.asks, &acted) {
                return CallsEnd {
                    done,
                    met: Met::of(&acted),
                };
            }
            drop(acted);
            done = done.saturating_add(1);
        }
        CallsEnd {
            done,
            met: Met {
                full: false,
                wanted: false,
            },
        }
    }
}

/// Whether what was read was not there, or what was put stands.
fn is_done(asks: Asks, acted: &Acted) -> bool
    ensures full { IsTrue result → is_full acted.now ≡ false }
    ensures wanted { IsTrue result → is_wanting acted.now ≡ false }
{
    match acted {
        Acted::Done(seen) => match asks {
            Asks::Reads => matches!(&seen.reply, Reply::Absent),
            Asks::Puts => matches!(&seen.reply, Reply::Stored),
        },
        _ => false,
    }
}

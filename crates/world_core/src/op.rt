//! The operations of which a run is made, one at a time: on an object of the bucket, or on the clock.

use base::{NoMemory, TryCopy};
use block_keys::Key;
use label_sets::Text;
use moment_core::Moment;
use ulid_core::Ulid;
use wire_bytes::Blob;

/// One atomic operation: on an object of the bucket, or on the clock.
#[derive(Drop)]
pub enum Op {
    /// Sets the clock, which never goes back.
    Clock(Moment),
    Put(Key, Blob),
    Get(Key),
    /// The object's bytes from the first number on, at most as many as the second says.
    GetRange(Key, u64, u64),
    Delete(Key),
    /// The names of blocks after the text, which is empty at first, and at most how many.
    RootPage(Text, u32),
    /// The names of one block's objects after the text, which is empty at first, and at most how many.
    BlockPage(Ulid, Text, u32),
}

impl Op {
    ghost use Rattle.std.specs.Prelude.{◌≡◌, ◌↔◌, IsTrue};

    /// Whether this is the same operation, down to its bytes.
    pub fn is_same(&self, other: &Op) -> bool
        ensures { IsTrue result ↔ (self.now ≡ other.now) }
    {
        match self {
            Op::Clock(moment) => matches!(other, Op::Clock(own) if own == moment),
            Op::Put(key, bytes) => {
                matches!(other, Op::Put(own, kept) if own == key && kept.bytes() == bytes.bytes())
            }
            Op::Get(key) => matches!(other, Op::Get(own) if own == key),
            Op::GetRange(key, from, len) => {
                matches!(other, Op::GetRange(own, low, most) if own == key && low == from && most == len)
            }
            Op::Delete(key) => matches!(other, Op::Delete(own) if own == key),
            Op::RootPage(after, limit) => {
                matches!(other, Op::RootPage(own, most) if own == after && most == limit)
            }
            Op::BlockPage(ulid, after, limit) => {
                matches!(other, Op::BlockPage(block, own, most) if block == ulid && own == after && most == limit)
            }
        }
    }
}

impl TryCopy for Op {
    fn copy(&self) -> Result<Self, NoMemory> {
        Ok(match self {
            Op::Clock(moment) => Op::Clock(*moment),
            Op::Put(key, bytes) => Op::Put(*key, bytes.copy()?),
            Op::Get(key) => Op::Get(*key),
            Op::GetRange(key, from, len) => Op::GetRange(*key, *from, *len),
            Op::Delete(key) => Op::Delete(*key),
            Op::RootPage(after, limit) => Op::RootPage(after.copy()?, *limit),
            Op::BlockPage(ulid, after, limit) => Op::BlockPage(*ulid, after.copy()?, *limit),
        })
    }
}

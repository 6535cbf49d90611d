//! Bits of a chunk's XOR data, gathered in a word until it is full. Each put makes room for the last word too, so that
//! finishing takes no memory and cannot fail.

ghost use Rattle.std.specs.Prelude.{◌≡◌, ◌≤◌, [], ◌++◌, OnOk, OnErr};
ghost use Rattle.base.specs.Grammar.{IsBytes};
ghost use Rattle.wire_bytes.specs.Bits.{bits_of, bits_in, filled};

use crate::Blob;
use base::NoMemory;
use std::alloc::Global;
use std::marker::Model;

/// Writes bits into bytes, the most significant first.
#[derive(Drop)]
pub struct BitWriter {
    bytes: Vec<u8>,
    word: u64,
    count: u32,
}

impl Model for BitWriter {
    ghost use Rattle.std.specs.Prelude.{Bool, List};
    ghost use Rattle.wire_bytes.specs.Writing.{written_bits, IsWriting};

    ghost Value = { List Bool };

    ghost view = { λ w. written_bits w.bytes.items w.word w.count };

    ghost invariant = { λ w. IsWriting w.bytes w.word w.count };
}

impl BitWriter {
    /// A writer without bits. It takes no memory.
    pub fn new(alloc: Global) -> BitWriter
        ensures { result ≡ [] }
    {
        BitWriter {
            bytes: Vec::new(alloc),
            word: 0,
            count: 0,
        }
    }

    /// A writer behind these bytes.
    pub fn from_bytes(bytes: Vec<u8>) -> BitWriter
        ensures { result ≡ bits_in bytes.items }
    {
        BitWriter {
            bytes,
            word: 0,
            count: 0,
        }
    }

    /// Puts the low bits of a number, as many as are asked for.
    #[inline(always)]
    pub fn put_bits(&mut self, value: u64, count: u32) -> Result<(), NoMemory>
        requires { count ≤ 64 }
        ensures ok { OnOk result (self.new ≡ self.old ++ bits_of count value) }
        ensures err { OnErr result (self.new ≡ self.old) }
    {
        if count == 0 {
            return Ok(());
        }
        let bits = value << (64 - count);
        let word = self.word | (bits >> self.count);
        let total = self.count + count;
        if total < 64 {
            self.bytes.reserve(8)?;
            self.word = word;
            self.count = total;
        } else {
            self.bytes.reserve(16)?;
            self.bytes.extend_from_slice(&word.to_be_bytes()).unwrap();
            self.word = (bits << 1) << (63 - self.count);
            self.count = total - 64;
        }
        Ok(())
    }

    /// The bytes of the bits, the last of them filled with zero bits.
    pub fn finish(self) -> Blob
        ensures bits { bits_in result ≡ filled self }
        ensures bytes { IsBytes result }
    {
        let BitWriter {
            mut bytes,
            word,
            count,
        } = self;
        let last = word.to_be_bytes();
        bytes
            .extend_from_slice(&last[..count.div_ceil(8) as usize])
            .unwrap();
        blob_of(bytes)
    }
}

/// The bytes as a blob.
fn blob_of(bytes: Vec<u8>) -> Blob
    ensures same { result ≡ bytes.items }
    ensures bytes { IsBytes result }
{
    Blob::from_vec(bytes)
}

ghost use Rattle.std.specs.Prelude.{◌≡◌, ◌+◌, ◌<◌, ◌≤◌, ◌++◌, [], length, OnOk};
ghost use Rattle.wire_bytes.specs.Bits.{bits_of};

use base::NoMemory;
use std::marker::Model;
use wire_bytes::BitWriter;

/// A few bits that are put together before they are written.
#[derive(Drop)]
pub(crate) struct PendingBits {
    bits: u64,
    count: u32,
}

impl Model for PendingBits {
    ghost use Rattle.std.specs.Prelude.{Bool, List, ◌<◌, ◌≤◌, ◌^◌};
    ghost use Rattle.wire_bytes.specs.Bits.{bits_of as low_bits};

    ghost Value = { List Bool };

    ghost view = { λ c. low_bits c.count c.bits };

    ghost invariant = { λ c. (c.count < 64) × (c.bits < 2 ^ c.count) };
}

impl PendingBits {
    /// No bits.
    #[inline(always)]
    pub(crate) fn none() -> PendingBits
        ensures { result ≡ [] }
    {
        PendingBits { bits: 0, count: 0 }
    }

    /// These bits, and behind them the low bits of a number.
    #[inline(always)]
    pub(crate) fn and_field(self, width: u32, number: u64) -> PendingBits
        requires { length self + width < 64 }
        ensures bits { result ≡ self ++ bits_of width number }
        ensures length { length result ≡ length self + width }
    {
        PendingBits {
            bits: (self.bits << width) | (number & ((1 << width) - 1)),
            count: self.count + width,
        }
    }

    /// Writes the bits.
    #[inline(always)]
    pub(crate) fn put(self, writer: &mut BitWriter) -> Result<(), NoMemory>
        ensures { OnOk result (writer.new ≡ writer.old ++ self) }
    {
        writer.put_bits(self.bits, self.count)
    }
}

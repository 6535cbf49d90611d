ghost use Rattle.std.specs.Prelude.{◌≡◌};
ghost use Rattle.xor_chunks.specs.declared.refusal.XorRefusal.TheVariants.{Short as IsShort, OutOfRange as IsOutOfRange, NoMemory as IsNoMemory};
ghost use Rattle.xor_chunks.specs.Refusals.{xor_refusal};

use std::alloc::{AllocError, AllocFailed};
use wire_bytes::{ShortBits, WireRefusal};

/// Why bytes are no XOR data.
#[derive(Clone, Copy, Debug, PartialEq, Eq)]
pub enum XorRefusal {
    /// The bits end before the samples do.
    Short,
    /// A time does not come after the one before it.
    Falling,
    /// A time outside 64 bits, a varint above 64 bits, or a window outside its pattern.
    OutOfRange,
    /// More is left after the samples than filling: zero bits up to the end of the byte, of stored data at most 8.
    Trailing,
    NoMemory,
}

impl From<ShortBits> for XorRefusal {
    ghost from_gives = { λ _ e. e ≡ IsShort };

    fn from(_: ShortBits) -> Self {
        XorRefusal::Short
    }
}

impl From<WireRefusal> for XorRefusal {
    ghost from_gives = { λ cause e. e ≡ xor_refusal cause };

    fn from(cause: WireRefusal) -> Self {
        match cause {
            WireRefusal::Short => XorRefusal::Short,
            WireRefusal::Overlong => XorRefusal::OutOfRange,
        }
    }
}

impl From<AllocError> for XorRefusal {
    ghost from_gives = { λ _ e. e ≡ IsNoMemory };

    fn from(_: AllocError) -> Self {
        XorRefusal::NoMemory
    }
}

impl<T: Drop> From<AllocFailed<T>> for XorRefusal {
    ghost from_gives = { λ _ e. e ≡ IsNoMemory };

    fn from(_: AllocFailed<T>) -> Self {
        XorRefusal::NoMemory
    }
}

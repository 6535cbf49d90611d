ghost use Rattle.std.specs.Prelude.{◌≡◌};
ghost use Rattle.index_parts.specs.declared.refusal.PartRefusal.TheVariants.{NoMemory as IsNoMemory};

use base::NoMemory;
use std::alloc::{AllocError, AllocFailed};

/// Why a section is not read. Places count bytes of the index.
#[derive(Clone, Copy, Debug, PartialEq, Eq)]
pub enum PartRefusal {
    /// A field does not fit, with its first byte; where the section itself does not fit, that of its length.
    Short(u64),
    /// The sum that is kept behind the content is not the content's.
    BadSum { kept: u32, computed: u32 },
    /// A member breaks the order or is not of its table's kind, with its first byte; or a symbol number of a series stands for no
    /// text that may stand there, with its own.
    Unordered(u64),
    /// A number passes its range, with the first byte of the varint that leads there.
    Overlong(u64),
    /// A text is not UTF-8, with its first byte.
    NotText(u64),
    NoMemory,
}

impl From<NoMemory> for PartRefusal {
    ghost from_gives = { λ _ e. e ≡ IsNoMemory };

    fn from(_: NoMemory) -> Self {
        PartRefusal::NoMemory
    }
}

impl From<AllocError> for PartRefusal {
    ghost from_gives = { λ _ e. e ≡ IsNoMemory };

    fn from(_: AllocError) -> Self {
        PartRefusal::NoMemory
    }
}

impl<T: Drop> From<AllocFailed<T>> for PartRefusal {
    ghost from_gives = { λ _ e. e ≡ IsNoMemory };

    fn from(_: AllocFailed<T>) -> Self {
        PartRefusal::NoMemory
    }
}

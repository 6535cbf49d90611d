ghost use Rattle.std.specs.Prelude.{◌≡◌};
ghost use Rattle.label_sets.specs.declared.label_refusal.LabelRefusal.TheVariants.{NoMemory};

use base::NoMemory;
use std::alloc::AllocFailed;

/// Why a label was not added to a set, or why no set was read.
#[derive(Clone, Copy, Debug, PartialEq, Eq)]
pub enum LabelRefusal {
    EmptyName,
    EmptyValue,
    /// The set has a label of this name already.
    Repeated,
    /// No label set goes on at this byte of the text.
    BadText(usize),
    NoMemory,
}

impl From<NoMemory> for LabelRefusal {
    ghost from_gives = { λ _ e. e ≡ NoMemory };

    fn from(_: NoMemory) -> Self {
        LabelRefusal::NoMemory
    }
}

impl<T: Drop> From<AllocFailed<T>> for LabelRefusal {
    ghost from_gives = { λ _ e. e ≡ NoMemory };

    fn from(_: AllocFailed<T>) -> Self {
        LabelRefusal::NoMemory
    }
}

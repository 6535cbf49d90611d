ghost use Rattle.std.specs.Prelude.{◌≡◌};
ghost use Rattle.matchers.specs.declared.selector_refusal.SelectorRefusal.TheVariants.{NoMemory};

use base::NoMemory;
use label_sets::Text;
use std::alloc::AllocFailed;

/// Why a text was not read as a selector.
#[derive(Debug, Drop)]
pub enum SelectorRefusal {
    /// No selector goes on at this place, which counts bytes from 0.
    BadSelector(usize),
    /// What opens at this place is no pattern, or it nests too deep.
    BadPattern(usize),
    /// The pattern that opens at this place passes the limit on the size of what is built.
    PatternSize(usize),
    /// A matcher asks for this replica label.
    ReplicaNamed(Text),
    NoMemory,
}

impl From<NoMemory> for SelectorRefusal {
    ghost from_gives = { λ _ e. e ≡ NoMemory };

    fn from(_: NoMemory) -> Self {
        SelectorRefusal::NoMemory
    }
}

impl<T: Drop> From<AllocFailed<T>> for SelectorRefusal {
    ghost from_gives = { λ _ e. e ≡ NoMemory };

    fn from(_: AllocFailed<T>) -> Self {
        SelectorRefusal::NoMemory
    }
}

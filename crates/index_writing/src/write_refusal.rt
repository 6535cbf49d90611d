ghost use Rattle.std.specs.Prelude.{◌≡◌};
ghost use Rattle.index_writing.specs.declared.write_refusal.IndexWriteRefusal.TheVariants.{NoMemory as IsNoMemory};

use base::NoMemory;
use std::alloc::AllocError;

/// Why an index is not written.
#[derive(Clone, Copy, Debug, PartialEq, Eq)]
pub enum IndexWriteRefusal {
    /// The index would pass its greatest length.
    TooLarge,
    NoMemory,
}

impl From<NoMemory> for IndexWriteRefusal {
    ghost from_gives = { λ _ e. e ≡ IsNoMemory };

    fn from(_: NoMemory) -> Self {
        IndexWriteRefusal::NoMemory
    }
}

impl From<AllocError> for IndexWriteRefusal {
    ghost from_gives = { λ _ e. e ≡ IsNoMemory };

    fn from(_: AllocError) -> Self {
        IndexWriteRefusal::NoMemory
    }
}

ghost use Rattle.std.specs.Prelude.{◌≡◌};
ghost use Rattle.index_v2.specs.declared.refusal.IndexRefusal.TheVariants.{NoMemory as IsNoMemory};

use base::NoMemory;
use index_parts::PartRefusal;
use std::alloc::AllocFailed;

/// Why an index is not read.
#[derive(Clone, Copy, Debug, PartialEq, Eq)]
pub enum IndexRefusal {
    /// The first four bytes are not an index's.
    BadMagic,
    /// The version is not 2.
    BadVersion,
    /// The sum behind the table of contents is not its references'.
    BadTocSum { kept: u32, computed: u32 },
    /// A section is refused, with its number: symbols 1, series 2, postings 5, postings table 6, and 0 for the file.
    BadSection(u8, PartRefusal),
    /// A series is refused, with its number.
    BadSeries(u32, PartRefusal),
    /// A row of the postings table does not list exactly its series, with its place, counted from 0. For a row that is
    /// missing it is the place where it would stand.
    PostingsDiffer(u32),
    /// Memory ran out.
    NoMemory,
}

impl From<NoMemory> for IndexRefusal {
    ghost from_gives = { λ _ e. e ≡ IsNoMemory };

    fn from(_: NoMemory) -> Self {
        IndexRefusal::NoMemory
    }
}

impl<T: Drop> From<AllocFailed<T>> for IndexRefusal {
    ghost from_gives = { λ _ e. e ≡ IsNoMemory };

    fn from(_: AllocFailed<T>) -> Self {
        IndexRefusal::NoMemory
    }
}

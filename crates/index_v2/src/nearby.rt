//! Searches that look at a guess first. They find the same whatever the guess, and a good one spares the search.
ghost use Rattle.std.specs.Prelude.{◌≡◌, ◌<◌, length, IfOk};
ghost use Rattle.std.specs.Ordering.{nat_cmp};
ghost use Rattle.std.specs.List.Sorted.{IsBinarySearchResult};

/// The place of a number among others that ascend.
pub(crate) fn place_near(numbers: &[u64], number: u64, guess: usize) -> Result<usize, usize>
    ensures within { IfOk result (λ place. place < length numbers.now) }
    ensures position { IsBinarySearchResult (λ y. nat_cmp y number) numbers.now result }
{
    match numbers.get(guess) {
        Some(found) if *found == number => Ok(guess),
        _ => numbers.binary_search(&number),
    }
}

/// Where the series of a list's numbers stand: the first one, the last one, and how far behind the one before it that is.
#[derive(Clone, Copy)]
pub(crate) struct Walk {
    first: usize,
    last: usize,
    step: usize,
}

impl Walk {
    /// A walk that probably begins at a place.
    pub(crate) fn from(guess: usize) -> Walk {
        Walk {
            first: guess,
            last: guess,
            step: 0,
        }
    }

    /// Where the next one probably stands: as far behind the last one as that behind the one before it.
    pub(crate) fn guess(self) -> usize {
        self.last.wrapping_add(self.step)
    }

    /// The walk with one more.
    pub(crate) fn with(self, place: usize) -> Walk {
        if self.step == 0 {
            return Walk {
                first: place,
                last: place,
                step: 1,
            };
        }
        Walk {
            first: self.first,
            last: place,
            step: place.wrapping_sub(self.last),
        }
    }

    /// Where the list of the next row probably begins: behind the beginning of this one.
    pub(crate) fn next_row(self) -> usize {
        self.first.wrapping_add(1)
    }
}

/// Where a label was found: the place of its row, and that of a series' number in the row's list.
#[derive(Clone, Copy)]
pub(crate) struct Spot {
    pub(crate) row: usize,
    pub(crate) place: usize,
}

impl Spot {
    /// Where the next series' number probably stands in the list of a row.
    pub(crate) fn guess(self, row: usize) -> usize {
        if row == self.row {
            self.place.wrapping_add(1)
        } else {
            self.place
        }
    }
}

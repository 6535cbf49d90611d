//! Series that follow one another in the list of all series.
ghost use Rattle.std.specs.Prelude.{◌≡◌, ◌+◌, ◌-◌, ◌<◌, ◌≤◌, ◌↔◌, ℕ, length, map, All, slice_index, slice_get, IfOk, IsTrue, Some};
ghost use Rattle.std.specs.List.Sorted.{IsStrictlyIncreasing};
ghost use Rattle.store_ranges.specs.Stretches.{stretch_at, IsSpanOf};
ghost use Rattle.store_ranges.specs.IndexRanges.{behind, AreRuns, Follows};

use crate::Span;
use base::NoMemory;
use std::alloc::Global;

/// Cuts the numbers of series into the longest runs that follow one another in the list of all
/// series.
///
/// A run is walked along the list; only from run to run a number is sought by halving.
pub fn runs_of_series(alloc: Global, all: &[u64], numbers: &[u64]) -> Result<Vec<Span>, NoMemory>
    requires { IsStrictlyIncreasing all.now }
    ensures cut { IfOk result
        (λ runs. AreRuns all.now numbers.now (map (stretch_at numbers.now) runs.items)) }
    ensures within { IfOk result (λ runs. All (IsSpanOf numbers.now) runs.items) }
{
    let mut runs = Vec::new(alloc);
    let mut start = 0;
    let mut there = 0;
    for place in 0..numbers.len() {
        there = place_behind(all, there, numbers[place]);
        if !goes_on(all, there, numbers, place) {
            runs.push(Span {
                start,
                end: place + 1,
            })?;
            start = place + 1;
        }
    }
    Ok(runs)
}

/// The number behind one in the list of all series.
pub fn number_behind(all: &[u64], number: u64) -> Option<u64>
    requires { IsStrictlyIncreasing all.now }
    ensures { result ≡ behind all.now number }
{
    let there = place_behind(all, 0, number);
    all.get(there).copied()
}

/// The place of the first number above one. It is looked for at a likely place first.
fn place_behind(all: &[u64], likely: usize, number: u64) -> usize
    requires { IsStrictlyIncreasing all.now }
    ensures { slice_get all.now result ≡ behind all.now number }
{
    if likely < all.len() && all[likely] == number {
        return likely + 1;
    }
    all.partition_point(|one| *one <= number)
}

/// Whether the next of the numbers is the one at a place of the list, which is that behind the
/// number at hand.
fn goes_on(all: &[u64], there: usize, numbers: &[u64], place: usize) -> bool
    requires within { place < length numbers.now }
    requires behind { slice_get all.now there ≡ behind all.now (slice_index numbers.now place) }
    ensures { IsTrue result
        ↔ ((place + 1 < length numbers.now)
        × Follows all.now (slice_index numbers.now place) (slice_index numbers.now (place + 1))) }
{
    place + 1 < numbers.len() && there < all.len() && all[there] == numbers[place + 1]
}

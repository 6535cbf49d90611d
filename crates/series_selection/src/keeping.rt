//! Numbers that are, or are not, among others.
ghost use Rattle.std.specs.Prelude.{◌≡◌, ◌+◌, ◌-◌, ◌==◌, ◌<◌, ◌≤◌, ℕ, length, slice_index, take, drop, IfOk, true, if◌then◌else◌};
ghost use Rattle.std.specs.List.Sorted.{IsNonDecreasing, IsStrictlyIncreasing};
ghost use Rattle.base.specs.Lists.{is_one_of};
ghost use Rattle.series_selection.specs.SelectionSteps.{kept_numbers};

use base::NoMemory;
use std::alloc::Global;
use wire_bytes::NumberList;

/// Those of ascending numbers that are among others, or those that are not. The others may repeat.
///
/// Both lists are passed once, by leaps: where one of them has few members, hardly more than these are looked at.
pub(crate) fn kept_numbers(
    alloc: Global,
    wanted: bool,
    others: &[u64],
    numbers: &[u64],
) -> Result<NumberList, NoMemory>
    requires others_rise { IsNonDecreasing others.now }
    requires rise { IsStrictlyIncreasing numbers.now }
    ensures value { IfOk result (λ left. left ≡ kept_numbers wanted others.now numbers.now) }
    ensures rises { IfOk result IsStrictlyIncreasing }
{
    let mut left = Vec::new(alloc);
    let mut there = 0;
    let mut here = 0;
    while here < numbers.len() {
        there = first_from(others, there, numbers[here]);
        let end = apart_until(others, there, numbers, here);
        let behind = behind_matches(others, there, numbers, end);
        left.extend_from_slice(part_kept(wanted, numbers, here, end, behind))?;
        here = behind;
    }
    Ok(NumberList::from_vec(left))
}

/// How far the numbers from a place on are below the next of the others.
#[inline(always)]
fn apart_until(others: &[u64], there: usize, numbers: &[u64], here: usize) -> usize
    requires rise { IsNonDecreasing numbers.now }
    requires within { here ≤ length numbers.now }
    ensures within { result ≤ length numbers.now }
    ensures behind { here ≤ result }
    ensures below { (k : ℕ) → here ≤ k → k < result → there < length others.now
        → slice_index numbers.now k < slice_index others.now there }
    ensures left { result < length numbers.now → there < length others.now }
    ensures reached { result < length numbers.now
        → slice_index others.now there ≤ slice_index numbers.now result }
{
    if there < others.len() {
        return first_from(numbers, here, others[there]);
    }
    numbers.len()
}

/// The place behind the numbers, from an end on, that are one after another the next of the others.
#[inline(always)]
fn behind_matches(others: &[u64], there: usize, numbers: &[u64], end: usize) -> usize
    requires within { end ≤ length numbers.now }
    ensures within { result ≤ length numbers.now }
    ensures behind { end ≤ result }
    ensures among { (k : ℕ) → end ≤ k → k < result
        → is_one_of others.now (slice_index numbers.now k) ≡ true }
    ensures moves { end < length numbers.now → there < length others.now
        → slice_index numbers.now end ≡ slice_index others.now there → end < result }
{
    let mut behind = end;
    let mut next = there;
    while behind < numbers.len() && next < others.len() && numbers[behind] == others[next] {
        behind += 1;
        next += 1;
    }
    behind
}

/// What is kept of numbers of which those up to an end are not among the others, and those behind it are.
#[inline(always)]
fn part_kept(wanted: bool, numbers: &[u64], here: usize, end: usize, behind: usize) -> &[u64]
    requires begins { here ≤ end }
    requires goes { end ≤ behind }
    requires ends { behind ≤ length numbers.now }
    ensures { result.now
        ≡ (if wanted then take (behind - end) (drop end numbers.now)
        else take (end - here) (drop here numbers.now)) }
{
    if wanted {
        return &numbers[end..behind];
    }
    &numbers[here..end]
}

/// The first place, from this one on, at which a number is not below the least. It is sought by leaps that grow, and then by
/// halving.
#[inline(always)]
fn first_from(numbers: &[u64], from: usize, least: u64) -> usize
    requires rise { IsNonDecreasing numbers.now }
    requires within { from ≤ length numbers.now }
    ensures within { result ≤ length numbers.now }
    ensures behind { from ≤ result }
    ensures below { (k : ℕ) → from ≤ k → k < result → slice_index numbers.now k < least }
    ensures reached { result < length numbers.now → least ≤ slice_index numbers.now result }
{
    let mut low = from;
    let mut step = 1;
    while step <= numbers.len() - low && numbers[low + step - 1] < least {
        low += step;
        step += step;
    }
    place_by_halves(numbers, low, numbers.len().min(low + step - 1), least)
}

/// The first place from a low one on at which a number is not below the least, where there is one at the high place or none
/// behind it.
fn place_by_halves(numbers: &[u64], from: usize, to: usize, least: u64) -> usize
    requires rise { IsNonDecreasing numbers.now }
    requires order { from ≤ to }
    requires within { to ≤ length numbers.now }
    requires reached { to < length numbers.now → least ≤ slice_index numbers.now to }
    ensures within { result ≤ length numbers.now }
    ensures behind { from ≤ result }
    ensures below { (k : ℕ) → from ≤ k → k < result → slice_index numbers.now k < least }
    ensures reached { result < length numbers.now → least ≤ slice_index numbers.now result }
{
    let mut low = from;
    let mut high = to;
    while low < high {
        let middle = low + (high - low) / 2;
        if numbers[middle] < least {
            low = middle + 1;
        } else {
            high = middle;
        }
    }
    low
}

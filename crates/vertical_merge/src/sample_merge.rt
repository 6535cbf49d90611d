//! The first sample at each time. Parts that ascend already are merged, and not sorted anew.

ghost use Rattle.std.specs.Prelude.{◌≡◌, ◌+◌, ◌<◌, ◌≤◌, ◌++◌, ℕ, length, take, slice_index_or, true, All, IfOk, MatchOption};
ghost use Rattle.std.specs.List.Sorted.{IsStrictlySortedBy};
ghost use Rattle.base.specs.Lists.{joined as all_of};
ghost use Rattle.label_sets.specs.declared.sample.Sample.{Sample};
ghost use Rattle.vertical_merge.specs.Joined.{compare_times, has_lesser_time, first_samples};

use base::NoMemory;
use label_sets::{LabelSet, Sample, SampleList};
use std::alloc::Global;

/// Series under equal labels, which are to become one: the samples of each, in their order.
#[derive(Drop)]
pub(crate) struct Parts {
    pub(crate) labels: LabelSet,
    pub(crate) parts: Vec<SampleList>,
}

/// The samples of all parts in the order of their times, of those at one time the first. The parts are merged two by two.
pub(crate) fn first_of_parts(parts: Vec<SampleList>) -> Result<SampleList, NoMemory>
    ensures { IfOk result (λ made. made ≡ first_samples (all_of parts.items)) }
{
    let mut front = parts;
    let middle = front.len() / 2;
    if middle == 0 {
        return first_of_last(front);
    }
    let back = front.split_off(middle)?;
    let first = first_of_parts(front)?;
    let second = first_of_parts(back)?;
    let made = merge(first.into_vec(), second.members())?;
    Ok(SampleList::from_vec(made))
}

/// The samples of one part, or of none, in the order of their times, of those at one time the first.
fn first_of_last(parts: Vec<SampleList>) -> Result<SampleList, NoMemory>
    requires { length parts.items ≤ 1 }
    ensures { IfOk result (λ made. made ≡ first_samples (all_of parts.items)) }
{
    let mut parts = parts;
    match parts.pop() {
        Some(part) => first_samples(part),
        None => Ok(SampleList::new(*parts.allocator())),
    }
}

/// The samples in the order of their times, of those at one time the first.
fn first_samples(samples: SampleList) -> Result<SampleList, NoMemory>
    ensures { IfOk result (λ made. made ≡ first_samples samples) }
{
    let samples = samples.into_vec();
    if fall(samples.as_slice()).is_none() {
        return Ok(SampleList::from_vec(samples));
    }
    let made = merged_samples(*samples.allocator(), samples.as_slice())?;
    Ok(SampleList::from_vec(made))
}

/// The samples of a slice in the order of their times, of those at one time the first. It is cut where the times fall, so that no
/// part that ascends is cut, and the cuts lie near the middle.
fn merged_samples(alloc: Global, samples: &[Sample]) -> Result<Vec<Sample>, NoMemory>
    ensures { IfOk result (λ made. made.items ≡ first_samples samples.now) }
{
    let Some(place) = fall(samples) else {
        return Ok(Vec::from_slice(alloc, samples)?);
    };
    let (front, back) = samples.split_at(place);
    let front = merged_samples(alloc, front)?;
    let back = merged_samples(alloc, back)?;
    merge(front, back.as_slice())
}

/// Samples at ascending times and others, in the order of their times. At a time of both the first sample stays.
///
/// Where the others lie behind all samples, these stay where they are.
fn merge(samples: Vec<Sample>, others: &[Sample]) -> Result<Vec<Sample>, NoMemory>
    requires ascend { IsStrictlySortedBy compare_times samples.items }
    requires others { IsStrictlySortedBy compare_times others.now }
    ensures { IfOk result (λ made. made.items ≡ first_samples (samples.items ++ others.now)) }
{
    let start = start_of(samples.as_slice(), others);
    if start == samples.len() {
        return with_appended(samples, others);
    }
    let (before, tail) = samples.as_slice().split_at(start);
    let mut made = Vec::with_capacity(*samples.allocator(), samples.len() + others.len())?;
    made.extend_from_slice(before)?;
    with_merged(made, tail, others)
}

/// Samples with others behind them, in no more memory than these take.
fn with_appended(samples: Vec<Sample>, others: &[Sample]) -> Result<Vec<Sample>, NoMemory>
    ensures { IfOk result (λ made. made.items ≡ samples.items ++ others.now) }
{
    let mut made = samples;
    made.reserve_exact(others.len())?;
    made.extend_from_slice(others)?;
    Ok(made)
}

/// How many of the samples are before all others.
fn start_of(samples: &[Sample], others: &[Sample]) -> usize
    requires ascend { IsStrictlySortedBy compare_times samples.now }
    requires others { IsStrictlySortedBy compare_times others.now }
    ensures within { result ≤ length samples.now }
    ensures before { All (λ one. All (λ other. has_lesser_time one other ≡ true) others.now)
        (take result samples.now) }
{
    let Some(first) = others.first() else {
        return samples.len();
    };
    samples.partition_point(|sample| is_before(sample, first))
}

/// The list with the merge of two lists behind it.
fn with_merged(
    list: Vec<Sample>,
    samples: &[Sample],
    others: &[Sample],
) -> Result<Vec<Sample>, NoMemory>
    requires ascend { IsStrictlySortedBy compare_times samples.now }
    requires others { IsStrictlySortedBy compare_times others.now }
    ensures { IfOk result (λ made. made.items
        ≡ list.items ++ first_samples (samples.now ++ others.now)) }
{
    let mut made = list;
    let mut here = 0;
    let mut there = 0;
    while here < samples.len() && there < others.len() {
        let one = samples[here];
        let other = others[there];
        if is_before(&one, &other) {
            made.push(one)?;
            here += 1;
        } else if is_before(&other, &one) {
            made.push(other)?;
            there += 1;
        } else {
            made.push(one)?;
            here += 1;
            there += 1;
        }
    }
    made.extend_from_slice(&samples[here..])?;
    made.extend_from_slice(&others[there..])?;
    Ok(made)
}

/// A place at which the time is not after the one before it: the first from the middle on, or else the last. None where the
/// times ascend.
fn fall(samples: &[Sample]) -> Option<usize>
    ensures { MatchOption result (IsStrictlySortedBy compare_times samples.now)
        (λ place. (0 < place) × (place < length samples.now)) }
{
    let middle = samples.len() / 2;
    match first_fall(samples, middle) {
        Some(place) => Some(place),
        None => last_fall(samples, middle),
    }
}

/// The first fall behind a place.
fn first_fall(samples: &[Sample], from: usize) -> Option<usize>
    requires { from ≤ length samples.now }
    ensures { MatchOption result
        ((k : ℕ) (d : Sample) → from ≤ k → k + 1 < length samples.now → has_lesser_time
        (slice_index_or samples.now k d) (slice_index_or samples.now (k + 1) d) ≡ true)
        (λ place. (0 < place) × (place < length samples.now)) }
{
    let mut place = from;
    while place + 1 < samples.len() {
        if !is_before(&samples[place], &samples[place + 1]) {
            return Some(place + 1);
        }
        place += 1;
    }
    None
}

/// The last fall up to a place.
fn last_fall(samples: &[Sample], to: usize) -> Option<usize>
    requires { to ≤ length samples.now }
    ensures { MatchOption result
        ((k : ℕ) (d : Sample) → k < to → k + 1 < length samples.now → has_lesser_time
        (slice_index_or samples.now k d) (slice_index_or samples.now (k + 1) d) ≡ true)
        (λ place. (0 < place) × (place < length samples.now)) }
{
    let mut place = to;
    while place > 0 {
        if place < samples.len() && !is_before(&samples[place - 1], &samples[place]) {
            return Some(place);
        }
        place -= 1;
    }
    None
}

#[inline(always)]
fn is_before(one: &Sample, other: &Sample) -> bool
    ensures { result ≡ has_lesser_time one.now other.now }
{
    one.time < other.time
}

//! Whether answers are all alike, as those of gateways that see the same blocks are. They are compared series by series, so that what
//! the first one has stays in the processor's cache, and four others at a time while there are four: lists that are read side by side
//! come from memory faster than one after another.
ghost use Rattle.std.specs.Prelude.{◌≡◌, ◌+◌, ◌<◌, ◌≤◌, ℕ, length, drop, slice_get, slice_index_or, true, All, Some};
ghost use Rattle.querier.specs.declared.answer.Answer.{Answer};

use crate::Answer;
use crate::repeats::is_same;
use label_sets::{Sample, Series};

/// Whether these are the series of each answer.
pub(crate) fn all_have(series: &[Series], answers: &[Answer]) -> bool
    ensures { result ≡ true → All (λ answer. series.now ≡ answer.series) answers.now }
{
    if !all_have_as_many(series.len(), answers) {
        return false;
    }
    for place in 0..series.len() {
        if !all_have_at(place, &series[place], answers) {
            return false;
        }
    }
    true
}

/// Whether each answer has so many series.
fn all_have_as_many(count: usize, answers: &[Answer]) -> bool
    ensures { result ≡ true → All (λ answer. length answer.series ≡ count) answers.now }
{
    for answer in answers {
        if answer.series.len() != count {
            return false;
        }
    }
    true
}

/// Whether each answer has this series at a place.
fn all_have_at(place: usize, series: &Series, answers: &[Answer]) -> bool
    ensures { result ≡ true → All (λ answer. slice_get answer.series place ≡ Some series.now)
        answers.now }
{
    prove!(answers.len() <= 0x7fff_ffff_ffff_ffff);
    let mut start = 0;
    while start < answers.len() {
        if !four_have_at(place, series, answers, start) {
            return false;
        }
        start += 4;
    }
    true
}

/// Whether four answers from one on, or as many as there are, have this series at a place.
fn four_have_at(place: usize, series: &Series, answers: &[Answer], start: usize) -> bool
    requires { start < length answers.now }
    ensures { result ≡ true → (k : ℕ) (d : Answer) → start ≤ k → k < start + 4
        → k < length answers.now
        → slice_get (slice_index_or answers.now k d).series place ≡ Some series.now }
{
    if answers.len() - start < 4 {
        return rest_have_at(place, series, answers, start);
    }
    let Some(one) = answers[start].series.get(place) else {
        return false;
    };
    let Some(two) = answers[start + 1].series.get(place) else {
        return false;
    };
    let Some(three) = answers[start + 2].series.get(place) else {
        return false;
    };
    let Some(four) = answers[start + 3].series.get(place) else {
        return false;
    };
    are_four(series, one, two, three, four)
}

/// Whether the series stands at the place in each answer from one on, as they follow one another.
fn rest_have_at(place: usize, series: &Series, answers: &[Answer], start: usize) -> bool
    ensures { result ≡ true → (k : ℕ) (d : Answer) → start ≤ k → k < length answers.now
        → slice_get (slice_index_or answers.now k d).series place ≡ Some series.now }
{
    for number in start..answers.len() {
        if !has_at(place, series, &answers[number]) {
            return false;
        }
    }
    true
}

/// Whether an answer has this series at a place.
fn has_at(place: usize, series: &Series, answer: &Answer) -> bool
    ensures { result ≡ true → slice_get answer.now.series place ≡ Some series.now }
{
    match answer.series.get(place) {
        Some(other) => is_same(series, other),
        None => false,
    }
}

/// Whether four series are this one.
fn are_four(series: &Series, one: &Series, two: &Series, three: &Series, four: &Series) -> bool
    ensures { result ≡ true → (series.now ≡ one.now) × (series.now ≡ two.now)
        × (series.now ≡ three.now) × (series.now ≡ four.now) }
{
    if !has_labels(series, one) || !has_labels(series, two) {
        return false;
    }
    if !has_labels(series, three) || !has_labels(series, four) {
        return false;
    }
    have_all(
        series.samples.members(),
        one.samples.members(),
        two.samples.members(),
        three.samples.members(),
        four.samples.members(),
    )
}

fn has_labels(series: &Series, other: &Series) -> bool
    ensures { result ≡ true → series.now.labels ≡ other.now.labels }
{
    series.labels == other.labels
}

/// Whether each of four lists has the same samples in the same order.
fn have_all(
    samples: &[Sample],
    one: &[Sample],
    two: &[Sample],
    three: &[Sample],
    four: &[Sample],
) -> bool
    ensures { result ≡ true → (samples.now ≡ one.now) × (samples.now ≡ two.now)
        × (samples.now ≡ three.now) × (samples.now ≡ four.now) }
{
    let count = samples.len();
    if one.len() != count || two.len() != count || three.len() != count || four.len() != count {
        return false;
    }
    for place in 0..count {
        let sample = samples[place];
        if !is_each(sample, one[place], two[place], three[place], four[place]) {
            return false;
        }
    }
    true
}

#[inline(always)]
fn is_each(sample: Sample, one: Sample, two: Sample, three: Sample, four: Sample) -> bool
    ensures { result ≡ true → (sample ≡ one) × (sample ≡ two) × (sample ≡ three)
        × (sample ≡ four) }
{
    sample == one && sample == two && sample == three && sample == four
}

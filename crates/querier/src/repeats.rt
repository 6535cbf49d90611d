//! Answers that say what the one before them says, as those of gateways that see the same blocks do. To compare two answers takes
//! far less than to merge them.
ghost use Rattle.std.specs.Prelude.{◌≡◌, ◌++◌, ◌∷◌, [], List, Contains, true, IfOk, OnOk};
ghost use Rattle.querier.specs.Gathered.{TellTheSame};
ghost use Rattle.querier.specs.declared.answer.Answer.{Answer};

use crate::{Answer, CompareWay};
use base::NoMemory;
use label_sets::{Sample, Series};
use std::alloc::Global;

/// The answers without repeats. The way empties some of those that have the first one's series; then each that has the series of the one
/// before it is left out.
pub(crate) fn without_repeats<W: CompareWay>(
    alloc: Global,
    answers: Vec<Answer>,
    way: &W,
) -> Result<Vec<Answer>, NoMemory>
    requires { W.can_compare way.now }
    ensures { IfOk result (λ told. TellTheSame answers.items told.items) }
{
    let mut others = answers;
    if others.is_empty() {
        return Ok(others);
    }
    let first = others.remove(0);
    way.compare_all(alloc, &first, others.as_mut_slice());
    told_in_turn(alloc, first, others)
}

/// The first answer, and the others but for each whose series are those of the one before it.
fn told_in_turn(alloc: Global, first: Answer, others: Vec<Answer>) -> Result<Vec<Answer>, NoMemory>
    ensures { IfOk result (λ told. TellTheSame (first ∷ others.items) told.items) }
{
    let mut told = Vec::new(alloc);
    told.push(first)?;
    for answer in others {
        tell_once(&mut told, answer)?;
    }
    Ok(told)
}

/// Adds an answer, unless its series are those of the last one.
fn tell_once(told: &mut Vec<Answer>, answer: Answer) -> Result<(), NoMemory>
    ensures { (answers : List Answer) → TellTheSame answers told.old.items
        → OnOk result (TellTheSame (answers ++ answer ∷ []) told.new.items) }
{
    if !repeats_last(told.as_slice(), &answer) {
        told.push(answer)?;
    }
    Ok(())
}

/// Whether the series of an answer are those of the last one.
fn repeats_last(told: &[Answer], answer: &Answer) -> bool
    ensures { result ≡ true → (last : Answer) × Contains told.now last
        × (last.series ≡ answer.now.series) }
{
    match told.last() {
        Some(last) => are_same(last.series.members(), answer.series.members()),
        None => false,
    }
}

/// Whether these are the same series in the same order.
pub(crate) fn are_same(series: &[Series], others: &[Series]) -> bool
    ensures { result ≡ true → series.now ≡ others.now }
{
    if series.len() != others.len() {
        return false;
    }
    for place in 0..series.len() {
        if !is_same(&series[place], &others[place]) {
            return false;
        }
    }
    true
}

pub(crate) fn is_same(series: &Series, other: &Series) -> bool
    ensures { result ≡ true → series.now ≡ other.now }
{
    series.labels == other.labels && have_same(series.samples.members(), other.samples.members())
}

/// Whether these are the same samples in the same order.
fn have_same(samples: &[Sample], others: &[Sample]) -> bool
    ensures { result ≡ true → samples.now ≡ others.now }
{
    if samples.len() != others.len() {
        return false;
    }
    for place in 0..samples.len() {
        if samples[place] != others[place] {
            return false;
        }
    }
    true
}

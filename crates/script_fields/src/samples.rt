//! The samples of a series line, which single spaces keep apart.

ghost use Rattle.std.specs.Prelude.{◌≡◌, ◌*◌, ◌≤◌, length, IfOk};
ghost use Rattle.base.specs.Reading.{Gives, refused_as};
ghost use Rattle.label_sets.specs.SampleText.{sample_of};
ghost use Rattle.script_fields.specs.declared.cause.LineCause.TheVariants.{BadSample};
ghost use Rattle.script_fields.specs.declared.line_refusal.LineRefusal.TheVariants as line_refusals;
ghost use Rattle.script_fields.specs.Samples.{are_whole, has_small_number, have_small_numbers, samples_of, are_within};
ghost use Rattle.script_fields.specs.LineRefusals.{bad};

use crate::LineCause;
use crate::fields::next_field;
use crate::line_refusal::LineRefusal;
use crate::values::is_time;
use base::{NumberRefusal, read_signed};
use label_sets::{Sample, SampleList, is_within};
use std::alloc::Global;

/// Whether no field is empty.
pub fn are_whole(texts: &str) -> bool
    ensures { result ≡ are_whole texts.now }
{
    texts.split(' ').all(|text| !text.is_empty())
}

/// Whether no field begins with a number that is out of the range of times.
pub fn have_small_numbers(texts: &str) -> bool
    ensures { result ≡ have_small_numbers texts.now }
{
    texts.split(' ').all(|text| has_small_number(text))
}

#[tactic(auto, unfolding(crate::specs::Samples::has_small_number))]
fn has_small_number(text: &str) -> bool
    ensures { result ≡ has_small_number text.now }
{
    let Some((time, _)) = text.split_once(':') else {
        return true;
    };
    match read_signed(time) {
        Ok(time) => is_time(time),
        Err(NumberRefusal::TooLarge) => false,
        Err(NumberRefusal::NotANumber) => true,
    }
}

/// The samples, each of which is a field.
pub fn read_samples(alloc: Global, texts: &str) -> Result<SampleList, LineRefusal>
    ensures gives { Gives line_refusals.NoMemory (λ samples. samples) result
        (bad (samples_of texts.now)) }
    ensures few { IfOk result (λ samples. length samples ≤ 2 * length texts.now) }
{
    all_samples(alloc, texts)
}

fn all_samples(alloc: Global, texts: &str) -> Result<SampleList, LineRefusal>
    ensures { Gives line_refusals.NoMemory (λ samples. samples) result
        (bad (samples_of texts.now)) }
{
    let mut samples = SampleList::new(alloc);
    let mut left = Some(texts);
    while let Some(text) = left {
        let (field, rest) = next_field(Some(text));
        samples.push(read_sample(field)?)?;
        left = rest;
    }
    Ok(samples)
}

fn read_sample(text: &str) -> Result<Sample, LineCause>
    ensures { result ≡ refused_as (λ _. BadSample) (sample_of text.now) }
{
    Sample::read(text).map_err(|_| LineCause::BadSample)
}

/// Whether each time is at least `first` and below `last`.
pub fn are_within(samples: &[Sample], first: i64, last: i64) -> bool
    ensures { result ≡ are_within first last samples.now }
{
    samples.iter().all(|sample| is_within(sample, first, last))
}

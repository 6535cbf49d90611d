//! A series line that comes as its labels and its samples.

ghost use Rattle.std.specs.Prelude.{◌≡◌, ◌⊎◌, ◌<◌, ◌≤◌, ◌+◌, ◌*◌, ℕ, List, IsTrue, IfErr, IfOk, MatchResult, OnOk, Ok, Err, length, not};
ghost use Rattle.std.specs.List.{list_all};
ghost use Rattle.std.specs.Str.{is_utf8};
ghost use Rattle.label_sets.specs.SetText.{IsSetText};
ghost use Rattle.label_sets.specs.declared.label.Label.{Label};
ghost use Rattle.script_fields.specs.Fields.{is_newline};
ghost use Rattle.script_fields.specs.Limits.{longest_text, longest_sample};
ghost use Rattle.script_core.specs.Parts.{AreSeriesParts, IsOneLine, has_field, test_samples, series_front};
ghost use Rattle.script_core.specs.Reading.{line_at};
ghost use Rattle.script_core.specs.State.{add_series};
ghost use Rattle.script_core.specs.View.{state_of};
ghost use Rattle.script_fields.specs.declared.line_refusal.LineRefusal.TheVariants as line_refusals;
ghost use Rattle.script_fields.specs.declared.script_refusal.ScriptRefusal.TheVariants.{TooLong};

use crate::draft::Draft;
use crate::reader::{LONGEST_TEXT, text_of};
use crate::setup_lines::last_labels;
use label_sets::{LabelSet, Sample, SampleList, Series, times_ascend};
use script_fields::{LineCause, LineRefusal, ScriptRefusal, is_time};
use std::alloc::Global;

/// How many bytes a sample of a series line has at most, in a script or a report: a space, a sign, 19 digits of a time, a colon and 16 of a pattern.
pub const LONGEST_SAMPLE: usize = 38;

/// How many bytes a series line has at most, with its newline.
pub(crate) fn line_size(labels: usize, samples: usize) -> Result<usize, ScriptRefusal>
    ensures size { IfOk result (λ size. size ≡ 8 + labels + longest_sample * samples) }
    ensures refused { IfErr result (λ e. (e ≡ TooLong)
        × (longest_text < 8 + labels + longest_sample * samples)) }
{
    if labels > LONGEST_TEXT || samples > LONGEST_TEXT {
        return Err(ScriptRefusal::TooLong);
    }
    Ok(8 + labels + LONGEST_SAMPLE * samples)
}

/// Adds to the last block what a series line of these labels and samples adds.
pub(crate) fn put_series(
    draft: &mut Draft,
    alloc: Global,
    labels: &[u8],
    samples: SampleList,
) -> Result<(), LineRefusal>
    ensures line { OnOk result (IsOneLine (series_front labels.now samples)) }
    ensures size { OnOk result (length (series_front labels.now samples)
        ≤ 7 + length labels.now + longest_sample * length samples) }
    ensures read { OnOk result ((number : ℕ)
        → line_at (state_of draft.old) number (series_front labels.now samples)
        ≡ Ok (state_of draft.new)) }
    ensures refused { (set : List Label) → AreSeriesParts labels.now set samples
        → IfErr result (λ e. (e ≡ line_refusals.NoMemory)
        ⊎ (add_series (state_of draft.old) (record { labels = set; samples = samples })
        ≡ Err e)) }
{
    let set = read_labels(alloc, labels)?;
    test_samples(samples.members())?;
    draft.add_series(Series {
        labels: set,
        samples,
    })
}

/// The label set of a text that is one on one line.
fn read_labels(alloc: Global, text: &[u8]) -> Result<LabelSet, LineRefusal>
    ensures set { IfOk result (λ set. IsSetText text.now set) }
    ensures utf8 { OnOk result (IsTrue (is_utf8 text.now)) }
    ensures line { OnOk result (IsOneLine text.now) }
    ensures only { (set : List Label) → IsSetText text.now set → IsTrue (is_utf8 text.now)
        → IsOneLine text.now
        → MatchResult result (λ found. found ≡ set) (λ e. e ≡ line_refusals.NoMemory) }
{
    LineCause::BadLabelText.unless(is_one_line(text))?;
    let text = text_of(text).ok_or(LineCause::NotText)?;
    let set = last_labels(alloc, Some(text))?.ok_or(LineCause::BadLabelText)?;
    Ok(set)
}

/// Whether a series line can have these samples.
fn test_samples(samples: &[Sample]) -> Result<(), LineRefusal>
    ensures { result ≡ test_samples samples.now }
{
    LineCause::BadShape.unless(!samples.is_empty())?;
    LineCause::BadNumber.unless(have_fields(samples))?;
    LineCause::FallingTimes.unless(times_ascend(samples))
}

fn is_one_line(text: &[u8]) -> bool
    ensures { result ≡ list_all (λ byte. not (is_newline byte)) text.now }
{
    text.iter().all(|byte| *byte != b'\n')
}

/// Whether a series line can have each of these samples.
pub(crate) fn have_fields(samples: &[Sample]) -> bool
    ensures { result ≡ list_all has_field samples.now }
{
    samples.iter().all(|sample| has_field(*sample))
}

/// Whether a series line can have this sample. Each pattern of 64 bits will do.
fn has_field(sample: Sample) -> bool
    ensures { result ≡ has_field sample }
{
    is_time(sample.time)
}

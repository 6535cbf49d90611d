//! The lines before the first phase: rules, gateways, blocks with their series, and blocks of the shelf.

ghost use Rattle.std.specs.Prelude.{◌≡◌, ◌↔◌, IsOkAnd, IsTrue, option_copied};
ghost use Rattle.std.specs.List.{list_all};
ghost use Rattle.base.specs.Reading.{Gives};
ghost use Rattle.script_fields.specs.declared.line_refusal.LineRefusal.TheVariants as line_refusals;
ghost use Rattle.script_core.specs.Lines.{rule_line, partition_field, gateway_line, block_head, test_head, block_line, test_shelf, shelf_line, last_labels, line_samples, series_line, first_labels};
ghost use Rattle.script_core.specs.Parts.{has_field};
ghost use Rattle.script_core.specs.View.{state_of};

use crate::draft::Draft;
use crate::inline_block::{BlockHead, InlineBlock};
use crate::series_parts::have_fields;
use crate::{Block, Body};
use label_sets::{LabelRefusal, LabelSet, SampleList, Series, Text, is_name, times_ascend};
use moment_core::Partition;
use script_fields::{
    LineCause, LineRefusal, RuleKind, after_space, are_whole, have_small_numbers, is_reserved,
    next_field, only_field, read_samples, time, ulid,
};
use std::alloc::Global;
use ulid_core::Ulid;

/// `rule NAME VALUE`, where the name `replica-label` adds a label and each other name sets its rule
#[tactic(auto, unfolding(crate::specs::View::state_of, crate::specs::Lines::rule_line))]
pub(crate) fn rule_line(
    draft: &mut Draft,
    alloc: Global,
    fields: Option<&str>,
) -> Result<(), LineRefusal>
    ensures { Gives line_refusals.NoMemory (λ _. state_of draft.new) result
        (rule_line (state_of draft.old) (option_copied fields.entry)) }
{
    let fields = fields.ok_or(LineCause::BadShape)?;
    let (name, value) = next_field(Some(fields));
    let kind = RuleKind::of_word(name).ok_or(LineCause::UnknownWord)?;
    kind.apply(&mut draft.rules, alloc, only_field(value)?)?;
    LineCause::LateLine.unless(draft.phase.is_none())
}

/// `gateway NAME` or `gateway NAME LOW HIGH`
#[tactic(auto, unfolding(crate::specs::View::state_of, crate::specs::Lines::gateway_line))]
pub(crate) fn gateway_line(
    draft: &mut Draft,
    alloc: Global,
    fields: Option<&str>,
) -> Result<(), LineRefusal>
    ensures { Gives line_refusals.NoMemory (λ _. state_of draft.new) result
        (gateway_line (state_of draft.old) (option_copied fields.entry)) }
{
    let (name, rest) = next_field(fields);
    LineCause::BadShape.unless(!name.is_empty())?;
    let partition = partition(rest)?;
    LineCause::BadName.unless(is_name(name))?;
    LineCause::LateLine.unless(draft.phase.is_none())?;
    LineCause::BadTimes.unless(partition.low <= partition.high)?;
    LineCause::RepeatedGateway.unless(draft.gateway_named(name).is_none())?;
    draft.add_gateway(Text::from_str(alloc, name)?, partition)
}

/// What is left behind a gateway's name: nothing, for all times, or `LOW HIGH`.
#[tactic(auto, unfolding(crate::specs::Lines::partition_field))]
fn partition(left: Option<&str>) -> Result<Partition, LineCause>
    ensures { result ≡ partition_field (option_copied left.entry) }
{
    let Some(text) = left else {
        return Ok(Partition::all_times());
    };
    let (low_text, rest) = next_field(Some(text));
    let high_text = only_field(rest)?;
    if low_text.is_empty() {
        return Err(LineCause::BadShape);
    }
    Ok(Partition {
        low: time(low_text)?,
        high: time(high_text)?,
    })
}

/// `block ULID MIN MAX LABELS`
#[tactic(auto, unfolding(crate::specs::View::state_of, crate::specs::Lines::block_line))]
pub(crate) fn block_line(
    draft: &mut Draft,
    alloc: Global,
    number: u32,
    fields: Option<&str>,
) -> Result<(), LineRefusal>
    ensures { Gives line_refusals.NoMemory (λ _. state_of draft.new) result
        (block_line (state_of draft.old) number (option_copied fields.entry)) }
{
    let (ulid_text, rest) = next_field(fields);
    let (min_text, rest) = next_field(rest);
    let (max_text, rest) = next_field(rest);
    let whole = !ulid_text.is_empty() && !min_text.is_empty() && !max_text.is_empty();
    LineCause::BadShape.unless(whole)?;
    let labels = last_labels(alloc, rest)?;
    let head = block_head(ulid_text, min_text, max_text)?;
    let labels = labels.ok_or(LineCause::BadLabelText)?;
    test_head(draft.phase.is_none(), &head)?;
    draft.begin_block(alloc, InlineBlock::new(alloc, number, head, labels))
}

/// Reads what a block line says before its labels.
fn block_head(ulid_text: &str, min_text: &str, max_text: &str) -> Result<BlockHead, LineCause>
    ensures { result ≡ block_head ulid_text.now min_text.now max_text.now }
{
    let min_time = time(min_text)?;
    let max_time = time(max_text)?;
    let ulid = ulid(ulid_text)?;
    Ok(BlockHead {
        ulid,
        min_time,
        max_time,
    })
}

/// Whether a block line may have these, and stands before the first phase.
fn test_head(early: bool, head: &BlockHead) -> Result<(), LineRefusal>
    ensures { result ≡ test_head early head.now }
{
    LineCause::LateLine.unless(early)?;
    LineCause::BadTimes.unless(head.min_time < head.max_time)?;
    LineCause::ReservedUlid.unless(!is_reserved(head.ulid))
}

/// `shelf ULID LABELS`
#[tactic(auto, unfolding(crate::specs::View::state_of, crate::specs::Lines::shelf_line))]
pub(crate) fn shelf_line(
    draft: &mut Draft,
    alloc: Global,
    fields: Option<&str>,
) -> Result<(), LineRefusal>
    ensures { Gives line_refusals.NoMemory (λ _. state_of draft.new) result
        (shelf_line (state_of draft.old) (option_copied fields.entry)) }
{
    let (ulid_text, rest) = next_field(fields);
    LineCause::BadShape.unless(!ulid_text.is_empty())?;
    let labels = last_labels(alloc, rest)?;
    let ulid = ulid(ulid_text)?;
    let labels = labels.ok_or(LineCause::BadLabelText)?;
    test_shelf(draft.phase.is_none(), ulid)?;
    draft.add_shelf_block(Block {
        ulid,
        labels,
        body: Body::OnShelf,
    })
}

/// Whether a shelf line may have this ULID, and stands before the first phase.
fn test_shelf(early: bool, ulid: Ulid) -> Result<(), LineRefusal>
    ensures { result ≡ test_shelf early ulid }
{
    LineCause::LateLine.unless(early)?;
    LineCause::ReservedUlid.unless(!is_reserved(ulid))
}

/// The label set that is left of a line, or none where the text is no label set.
#[tactic(auto, unfolding(crate::specs::Lines::last_labels))]
pub(crate) fn last_labels(
    alloc: Global,
    left: Option<&str>,
) -> Result<Option<LabelSet>, LineRefusal>
    ensures { Gives line_refusals.NoMemory (λ set. set) result
        (last_labels (option_copied left.entry)) }
{
    let text = left.unwrap_or("");
    LineCause::BadShape.unless(!text.is_empty())?;
    match LabelSet::read(alloc, text) {
        Ok((labels, end)) => {
            LineCause::BadShape.unless(end == text.len())?;
            Ok(Some(labels))
        }
        Err(LabelRefusal::NoMemory) => Err(LineRefusal::NoMemory),
        Err(_) => Ok(None),
    }
}

/// `series LABELS TIME:PATTERN TIME:PATTERN ..`
#[tactic(auto, unfolding(crate::specs::View::state_of, crate::specs::Lines::series_line))]
pub(crate) fn series_line(
    draft: &mut Draft,
    alloc: Global,
    fields: Option<&str>,
) -> Result<(), LineRefusal>
    ensures { Gives line_refusals.NoMemory (λ _. state_of draft.new) result
        (series_line (state_of draft.old) (option_copied fields.entry)) }
{
    let (labels, texts) = first_labels(alloc, fields)?;
    let samples = line_samples(alloc, texts)?;
    draft.add_series(Series { labels, samples })
}

/// The samples of a series line, whose times ascend.
fn line_samples(alloc: Global, texts: &str) -> Result<SampleList, LineRefusal>
    ensures { Gives line_refusals.NoMemory (λ samples. samples) result (line_samples texts.now) }
{
    let read = read_samples(alloc, texts);
    // Where a line can have the samples that were read, both tests pass. Each would walk all texts once more.
    if !are_fields(&read) {
        LineCause::BadShape.unless(are_whole(texts))?;
        LineCause::BadNumber.unless(have_small_numbers(texts))?;
    }
    let samples = read?;
    LineCause::FallingTimes.unless(times_ascend(samples.members()))?;
    Ok(samples)
}

/// Whether samples were read, each of which a series line can have.
fn are_fields(read: &Result<SampleList, LineRefusal>) -> bool
    ensures { IsTrue result ↔ IsOkAnd read.now (λ samples. IsTrue (list_all has_field samples)) }
{
    match read {
        Ok(samples) => have_fields(samples.members()),
        Err(_) => false,
    }
}

/// The label set at the front of what is left of a line, and the text behind the space after it.
#[tactic(auto, unfolding(crate::specs::Lines::first_labels))]
fn first_labels<'a>(
    alloc: Global,
    left: Option<&'a str>,
) -> Result<(LabelSet, &'a str), LineRefusal>
    ensures { Gives line_refusals.NoMemory (λ found. (found.0, found.1.now)) result
        (first_labels (option_copied left.entry)) }
{
    let text = left.unwrap_or("");
    LineCause::BadShape.unless(!text.is_empty())?;
    match LabelSet::read(alloc, text) {
        Ok((labels, end)) => Ok((labels, after_space(text, end)?)),
        Err(LabelRefusal::NoMemory) => Err(LineRefusal::NoMemory),
        Err(_) => Err(LineRefusal::Bad(LineCause::BadLabelText)),
    }
}

//! The lines of phases: their moments and their tasks.

ghost use Rattle.std.specs.Prelude.{◌≡◌, option_copied};
ghost use Rattle.base.specs.Reading.{Answers, Gives};
ghost use Rattle.script_fields.specs.declared.line_refusal.LineRefusal.TheVariants as line_refusals;
ghost use Rattle.script_fields.specs.Values.{agree, moment_field};
ghost use Rattle.script_core.specs.GivenUp.{GivesUnless, IsQueryGivenUp, IsSelectorGivenUp};
ghost use Rattle.script_fields.specs.LineRefusals.{bad};
ghost use Rattle.script_core.specs.Lines.{may_begin, at_line, stop_field, upload_line, sync_line, compact_line, clean_line, query_line, question_at, selector_field};
ghost use Rattle.script_core.specs.View.{asked_of, state_of};

use crate::draft::Draft;
use label_sets::{TextList, is_name};
use matchers::{Selector, SelectorRefusal};
use moment_core::{Moment, MomentRefusal, Rules, SECOND};
use script_fields::{
    LineCause, LineRefusal, is_reserved, next_field, only_field, stop_count, time, ulid,
};
use script_workers::{Phase, TaskList, Work};
use std::alloc::Global;

/// `at MOMENT`
#[tactic(auto, unfolding(crate::specs::View::state_of, crate::specs::Lines::at_line))]
pub(crate) fn at_line(
    draft: &mut Draft,
    alloc: Global,
    number: u32,
    fields: Option<&str>,
) -> Result<(), LineRefusal>
    ensures { Gives line_refusals.NoMemory (λ _. state_of draft.new) result
        (at_line (state_of draft.old) number (option_copied fields.entry)) }
{
    let moment = moment(alloc, only_field(fields)?)?;
    may_begin(&draft.rules, &draft.phase, moment)?;
    let phase = Phase {
        line: number,
        moment,
        tasks: TaskList::new(alloc),
    };
    draft.begin_phase(alloc, phase)?;
    Ok(())
}

#[tactic(auto, unfolding(script_fields::specs::Values::moment_field))]
fn moment(alloc: Global, field: &str) -> Result<Moment, LineRefusal>
    ensures { Gives line_refusals.NoMemory (λ moment. moment) result
        (bad (moment_field field.now)) }
{
    match Moment::read(alloc, field) {
        Ok(moment) => Ok(moment),
        Err(MomentRefusal::BadMoment) => Err(LineRefusal::Bad(LineCause::BadMomentText)),
        Err(MomentRefusal::NoMemory) => Err(LineRefusal::NoMemory),
    }
}

/// The first phase asks that the rules agree, a later one that it is not before the last.
fn may_begin(rules: &Rules, last: &Option<Phase>, moment: Moment) -> Result<(), LineRefusal>
    ensures { result ≡ may_begin rules.now last.now moment }
{
    match last {
        Some(last) => LineRefusal::FallingMoment.unless(last.moment.ms <= moment.ms),
        None => LineRefusal::BadRules.unless(agree(rules)),
    }
}

/// Whether an upload ends before a partial block is deleted and a second before a marked one is, and a mark is heeded
/// no later than it deletes.
fn agree(rules: &Rules) -> bool
    ensures { result ≡ agree rules.now }
{
    let upload = rules.upload.ms;
    let delete = rules.delete.ms;
    upload <= rules.partial.ms
        && upload <= delete
        && delete - upload >= SECOND
        && rules.ignore.ms <= delete
}

/// What is left behind the words of a task: nothing, or `stop N`.
#[tactic(auto, unfolding(crate::specs::Lines::stop_field))]
fn stop(left: Option<&str>) -> Result<Option<u32>, LineCause>
    ensures { result ≡ stop_field (option_copied left.entry) }
{
    let Some(text) = left else {
        return Ok(None);
    };
    let (word, rest) = next_field(Some(text));
    let count_text = only_field(rest)?;
    if word != "stop" {
        return Err(LineCause::BadShape);
    }
    Ok(Some(stop_count(count_text)?))
}

/// `upload ULID` or `upload ULID stop N`
#[tactic(auto, unfolding(crate::specs::View::state_of, crate::specs::Lines::upload_line))]
pub(crate) fn upload_line(
    draft: &mut Draft,
    number: u32,
    fields: Option<&str>,
) -> Result<(), LineRefusal>
    ensures { Gives line_refusals.NoMemory (λ _. state_of draft.new) result
        (upload_line (state_of draft.old) number (option_copied fields.entry)) }
{
    let (ulid_text, rest) = next_field(fields);
    LineCause::BadShape.unless(!ulid_text.is_empty())?;
    let stop = stop(rest)?;
    let ulid = ulid(ulid_text)?;
    LineCause::NoPhase.unless(draft.phase.is_some())?;
    LineCause::ReservedUlid.unless(!is_reserved(ulid))?;
    LineRefusal::UnknownBlock.unless(draft.is_declared(ulid))?;
    draft.add_task(number, Work::Upload(ulid, stop))
}

/// `sync NAME`
#[tactic(auto, unfolding(crate::specs::View::state_of, crate::specs::Lines::sync_line))]
pub(crate) fn sync_line(
    draft: &mut Draft,
    number: u32,
    fields: Option<&str>,
) -> Result<(), LineRefusal>
    ensures { Gives line_refusals.NoMemory (λ _. state_of draft.new) result
        (sync_line (state_of draft.old) number (option_copied fields.entry)) }
{
    let name = only_field(fields)?;
    LineCause::BadName.unless(is_name(name))?;
    LineCause::NoPhase.unless(draft.phase.is_some())?;
    let gateway = draft.gateway_named(name).ok_or(LineCause::UnknownGateway)?;
    draft.add_task(number, Work::Sync(gateway))?;
    draft.note_sync(gateway)?;
    Ok(())
}

/// `compact` or `compact stop N`
#[tactic(auto, unfolding(crate::specs::View::state_of, crate::specs::Lines::compact_line))]
pub(crate) fn compact_line(
    draft: &mut Draft,
    number: u32,
    fields: Option<&str>,
) -> Result<(), LineRefusal>
    ensures { Gives line_refusals.NoMemory (λ _. state_of draft.new) result
        (compact_line (state_of draft.old) number (option_copied fields.entry)) }
{
    let stop = stop(fields)?;
    LineCause::NoPhase.unless(draft.phase.is_some())?;
    LineRefusal::TwoCompactors.unless(!draft.has_compaction())?;
    draft.add_task(number, Work::Compact(stop))
}

/// `clean` or `clean stop N`
#[tactic(auto, unfolding(crate::specs::View::state_of, crate::specs::Lines::clean_line))]
pub(crate) fn clean_line(
    draft: &mut Draft,
    number: u32,
    fields: Option<&str>,
) -> Result<(), LineRefusal>
    ensures { Gives line_refusals.NoMemory (λ _. state_of draft.new) result
        (clean_line (state_of draft.old) number (option_copied fields.entry)) }
{
    let stop = stop(fields)?;
    LineCause::NoPhase.unless(draft.phase.is_some())?;
    draft.add_task(number, Work::Clean(stop))
}

/// What a query line asks, before its selector is read.
#[derive(Clone, Copy)]
pub(crate) struct Question<'a> {
    pub low: i64,
    pub high: i64,
    /// The text of the selector.
    pub selector: &'a str,
}

/// `query LOW HIGH SELECTOR`
#[tactic(auto, unfolding(crate::specs::View::state_of, crate::specs::Lines::query_line))]
pub(crate) fn query_line(
    draft: &mut Draft,
    alloc: Global,
    number: u32,
    fields: Option<&str>,
) -> Result<(), LineRefusal>
    ensures { GivesUnless (IsQueryGivenUp (state_of draft.old) (option_copied fields.entry))
        (λ _. state_of draft.new) result
        (query_line (state_of draft.old) number (option_copied fields.entry)) }
{
    let asked = read_question(draft.phase.is_some(), fields)?;
    let selector = selector(alloc, asked.selector, &draft.rules.replicas)?;
    LineRefusal::NeverSynced.unless(draft.are_all_synced())?;
    draft.add_query(number, asked.low, asked.high, selector)
}

/// `LOW HIGH SELECTOR`, where all that is left behind the times is the selector.
#[tactic(auto, unfolding(crate::specs::Lines::question_at))]
fn read_question<'a>(begun: bool, fields: Option<&'a str>) -> Result<Question<'a>, LineRefusal>
    ensures { Answers asked_of result (question_at begun (option_copied fields.entry)) }
{
    let (low_text, rest) = next_field(fields);
    let (high_text, rest) = next_field(rest);
    let selector = rest.unwrap_or("");
    let whole = !low_text.is_empty() && !high_text.is_empty() && !selector.is_empty();
    LineCause::BadShape.unless(whole)?;
    let low = time(low_text)?;
    let high = time(high_text)?;
    LineCause::NoPhase.unless(begun)?;
    LineCause::BadTimes.unless(low <= high)?;
    Ok(Question {
        low,
        high,
        selector,
    })
}

/// The selector of a text.
#[tactic(auto, using(crate::proofs::ReadSelectors::read_selector, crate::proofs::ReadSelectors::refused_selector))]
fn selector(alloc: Global, text: &str, replicas: &TextList) -> Result<Selector, LineRefusal>
    ensures { GivesUnless (IsSelectorGivenUp text.now) (λ selector. selector) result
        (bad (selector_field replicas.now text.now)) }
{
    match Selector::read(alloc, text, replicas) {
        Ok(selector) => Ok(selector),
        Err(SelectorRefusal::BadSelector(_)) => {
            Err(LineRefusal::Bad(LineCause::BadSelectorText))
        }
        Err(SelectorRefusal::BadPattern(_)) => Err(LineRefusal::Bad(LineCause::BadPatternText)),
        Err(SelectorRefusal::PatternSize(_)) => {
            Err(LineRefusal::Bad(LineCause::PatternSizeText))
        }
        Err(SelectorRefusal::ReplicaNamed(_)) => Err(LineRefusal::Bad(LineCause::ReplicaNamed)),
        Err(SelectorRefusal::NoMemory) => Err(LineRefusal::NoMemory),
    }
}

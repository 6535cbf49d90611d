//! Matchers of what was read of a text. Patterns are built in its order.
ghost use Rattle.std.specs.Prelude.{◌≡◌, ◌⊎◌, ◌++◌, true, map, All, IfOk, IfErr, OnOk};
ghost use Rattle.std.specs.Str.{IsUtf8};
ghost use Rattle.matchers.specs.Patterns.{is_pattern};
ghost use Rattle.matchers.specs.SelectorText.{metric_part, is_lawful, are_lawful};
ghost use Rattle.matchers.specs.Stages.{condition_of, matcher_of, selector_of, AreTexts};
ghost use Rattle.matchers.specs.Building.{IsUnbuilt, IsUnbuiltCondition, IsUnbuiltList};

use crate::asked::{Asked, Operator};
use crate::draft::Draft;
use crate::{Condition, Matcher, Pattern, PatternRefusal, SelectorRefusal};
use base::{List, NoMemory};
use label_sets::Text;
use std::alloc::Global;

/// The matchers of a text that was read to its end.
pub(crate) fn build(alloc: Global, draft: &Draft) -> Result<Vec<Matcher>, SelectorRefusal>
    requires { AreTexts draft.now }
    ensures value { IfOk result (λ made. made.items ≡ selector_of draft.now) }
    ensures lawful { IfOk result (λ made. are_lawful made.items ≡ true) }
    ensures refused { IfErr result (λ e. IsUnbuiltList draft.now.listed e) }
{
    let mut matchers = metric_part(alloc, &draft.metric)?;
    push_matchers(alloc, &mut matchers, draft.listed.members())?;
    Ok(matchers)
}

/// The matcher of a metric name, or none where there is no name.
#[tactic(auto, unfolding(crate::specs::Selectors::metric_matcher))]
fn metric_part(alloc: Global, metric: &List<u8>) -> Result<Vec<Matcher>, NoMemory>
    requires { IsUtf8 metric.now }
    ensures { IfOk result (λ made. made.items ≡ metric_part metric.now) }
{
    let mut matchers = Vec::new(alloc);
    if !metric.is_empty() {
        matchers.push(Matcher::of_metric(alloc, str_of(metric.members()))?)?;
    }
    Ok(matchers)
}

/// Adds the matchers in their order.
fn push_matchers(
    alloc: Global,
    matchers: &mut Vec<Matcher>,
    listed: &[Asked],
) -> Result<(), SelectorRefusal>
    requires { All (λ asked. IsUtf8 asked.name × IsUtf8 asked.value) listed.now }
    ensures value { OnOk result (matchers.new.items
        ≡ matchers.old.items ++ map matcher_of listed.now) }
    ensures lawful { OnOk result (are_lawful (map matcher_of listed.now) ≡ true) }
    ensures refused { IfErr result (λ e. IsUnbuiltList listed.now e) }
{
    for asked in listed {
        let matcher = build_matcher(alloc, asked)?;
        matchers.push(matcher)?;
    }
    Ok(())
}

fn build_matcher(alloc: Global, asked: &Asked) -> Result<Matcher, SelectorRefusal>
    requires name { IsUtf8 asked.now.name }
    requires value { IsUtf8 asked.now.value }
    ensures value { IfOk result (λ matcher. matcher ≡ matcher_of asked.now) }
    ensures lawful { IfOk result (λ matcher. is_lawful matcher.condition ≡ true) }
    ensures refused { IfErr result (λ e.
        IsUnbuiltCondition asked.now.operator asked.now.value asked.now.quote e) }
{
    let value = str_of(asked.value.members());
    let condition = build_condition(alloc, asked.operator, value, asked.quote)?;
    Ok(Matcher {
        name: Text::from_str(alloc, str_of(asked.name.members()))?,
        condition,
    })
}

#[tactic(auto, unfolding(crate::specs::Selectors::has_pattern))]
fn build_condition(
    alloc: Global,
    operator: Operator,
    value: &str,
    quote: usize,
) -> Result<Condition, SelectorRefusal>
    ensures value { IfOk result (λ condition. condition ≡ condition_of operator value.now) }
    ensures lawful { IfOk result (λ condition. is_lawful condition ≡ true) }
    ensures refused { IfErr result (λ e. IsUnbuiltCondition operator value.now quote e) }
{
    match operator {
        Operator::Equal => Ok(Condition::Equal(Text::from_str(alloc, value)?)),
        Operator::NotEqual => Ok(Condition::NotEqual(Text::from_str(alloc, value)?)),
        Operator::Matches => Ok(Condition::Matches(build_pattern(alloc, value, quote)?)),
        Operator::MatchesNot => Ok(Condition::MatchesNot(build_pattern(alloc, value, quote)?)),
    }
}

/// The pattern of a text whose quote opens at a place.
fn build_pattern(alloc: Global, text: &str, quote: usize) -> Result<Pattern, SelectorRefusal>
    ensures value { IfOk result (λ pattern. pattern ≡ text.now) }
    ensures lawful { OnOk result (is_pattern text.now ≡ true) }
    ensures refused { IfErr result (λ e. (e ≡ SelectorRefusal.NoMemory)
        ⊎ IsUnbuilt text.now quote e) }
{
    match Pattern::read(alloc, text) {
        Ok(pattern) => Ok(pattern),
        Err(PatternRefusal::BadPattern) => Err(SelectorRefusal::BadPattern(quote)),
        Err(PatternRefusal::PatternSize) => Err(SelectorRefusal::PatternSize(quote)),
        Err(PatternRefusal::NoMemory) => Err(SelectorRefusal::NoMemory),
    }
}

/// The text of bytes in UTF-8.
fn str_of(bytes: &[u8]) -> &str
    requires { IsUtf8 bytes.now }
    ensures { result.now ≡ bytes.now }
{
    match std::str::from_utf8(bytes) {
        Ok(text) => text,
        Err(_) => unreachable!(),
    }
}

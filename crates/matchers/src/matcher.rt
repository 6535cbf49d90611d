ghost use Rattle.std.specs.Prelude.{◌≡◌, IfOk, IsOk, false};
ghost use Rattle.matchers.specs.Selectors.{accepts, has_pattern, metric_matcher, value_or_empty};

use crate::Condition;
use base::NoMemory;
use label_sets::{LabelSet, Text};
use std::alloc::Global;

/// What a selector asks of one label. A label that is missing counts as one with an empty value.
#[derive(Debug, Drop)]
pub struct Matcher {
    pub name: Text,
    pub condition: Condition,
}

impl Matcher {
    /// The matcher that a metric name stands for.
    #[tactic(auto, unfolding(crate::specs::Selectors::metric_matcher))]
    pub(crate) fn of_metric(alloc: Global, metric: &str) -> Result<Matcher, NoMemory>
        ensures { IfOk result (λ matcher. matcher ≡ metric_matcher metric.now) }
    {
        Ok(Matcher {
            name: Text::from_str(alloc, "__name__")?,
            condition: Condition::Equal(Text::from_str(alloc, metric)?),
        })
    }

    /// Tells whether the matcher accepts the labels. Without a pattern it takes no memory.
    #[tactic(auto, unfolding(crate::specs::Selectors::accepts))]
    pub fn accepts(&self, labels: &LabelSet) -> Result<bool, NoMemory>
        ensures value { IfOk result (λ taken. taken ≡ accepts self.now labels.now) }
        ensures plain { has_pattern self.now.condition ≡ false → IsOk result }
    {
        self.condition
            .accepts(value_or_empty(labels, self.name.as_str()))
    }
}

/// The value under a name, which is empty where there is no such label.
#[tactic(auto, unfolding(crate::specs::Selectors::value_or_empty))]
fn value_or_empty<'a>(labels: &'a LabelSet, name: &str) -> &'a str
    ensures { result.now ≡ value_or_empty labels.now name.now }
{
    labels.value(name).unwrap_or("")
}

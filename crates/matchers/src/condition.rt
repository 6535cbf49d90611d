//! What a matcher asks of a label's value. A series without the label counts as one with the empty value, as in
//! Prometheus, so a condition that accepts the empty text takes it too.

ghost use Rattle.std.specs.Prelude.{◌≡◌, IfOk, IsOk, false};
ghost use Rattle.matchers.specs.Selectors.{has_pattern, is_accepted};
ghost use Rattle.matchers.specs.ConditionSearches.{condition_asked};

use crate::{ConditionSearcher, Pattern};
use base::NoMemory;
use label_sets::Text;

/// What a matcher asks of a value.
#[derive(Debug, Drop)]
pub enum Condition {
    /// `=`: it is this text.
    Equal(Text),
    /// `!=`: it is another text.
    NotEqual(Text),
    /// `=~`: the pattern matches it.
    Matches(Pattern),
    /// `!~`: the pattern does not match it.
    MatchesNot(Pattern),
}

impl Condition {
    /// Tells whether it has a pattern.
    #[tactic(auto, unfolding(crate::specs::Selectors::has_pattern))]
    pub fn has_pattern(&self) -> bool
        ensures { result ≡ has_pattern self.now }
    {
        match self {
            Condition::Equal(_) | Condition::NotEqual(_) => false,
            Condition::Matches(_) | Condition::MatchesNot(_) => true,
        }
    }

    /// Tells whether the value is what is asked. Without a pattern it takes no memory.
    #[tactic(auto, unfolding(crate::specs::Selectors::has_pattern, crate::specs::Selectors::is_accepted))]
    pub fn accepts(&self, value: &str) -> Result<bool, NoMemory>
        ensures value { IfOk result (λ taken. taken ≡ is_accepted self.now value.now) }
        ensures plain { has_pattern self.now ≡ false → IsOk result }
    {
        match self {
            Condition::Equal(asked) => Ok(value == asked.as_str()),
            Condition::NotEqual(asked) => Ok(value != asked.as_str()),
            Condition::Matches(pattern) => Ok(pattern.matches(value)?),
            Condition::MatchesNot(pattern) => Ok(!pattern.matches(value)?),
        }
    }
    /// What asks many values of this condition. Without a pattern it takes no memory.
    #[tactic(auto, unfolding(crate::specs::Selectors::has_pattern))]
    pub fn searcher(&self) -> Result<ConditionSearcher<'_>, NoMemory>
        ensures value { IfOk result (λ searcher. condition_asked searcher ≡ self.now) }
        ensures plain { has_pattern self.now ≡ false → IsOk result }
    {
        match self {
            Condition::Equal(asked) => Ok(ConditionSearcher::Equal(asked.as_str())),
            Condition::NotEqual(asked) => Ok(ConditionSearcher::NotEqual(asked.as_str())),
            Condition::Matches(pattern) => Ok(ConditionSearcher::Matches(pattern.searcher()?)),
            Condition::MatchesNot(pattern) => Ok(ConditionSearcher::MatchesNot(
                pattern.searcher()?,
            )),
        }
    }
}

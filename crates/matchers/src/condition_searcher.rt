ghost use Rattle.std.specs.Prelude.{◌≡◌};
ghost use Rattle.matchers.specs.Selectors.{is_accepted};
ghost use Rattle.matchers.specs.ConditionSearches.{condition_asked};

use crate::PatternSearcher;

/// Asks many values of one condition, and takes no more memory.
#[derive(Drop)]
pub enum ConditionSearcher<'c> {
    /// `=`: it is this text.
    Equal(&'c str),
    /// `!=`: it is another text.
    NotEqual(&'c str),
    /// `=~`: the pattern matches it.
    Matches(PatternSearcher<'c>),
    /// `!~`: the pattern does not match it.
    MatchesNot(PatternSearcher<'c>),
}

impl<'c> ConditionSearcher<'c> {
    /// Tells whether the value is what is asked.
    #[tactic(auto, unfolding(crate::specs::Selectors::is_accepted))]
    pub fn accepts(&mut self, value: &str) -> bool
        ensures value { result ≡ is_accepted (condition_asked self.old) value.now }
        ensures same { condition_asked self.new ≡ condition_asked self.old }
    {
        match self {
            ConditionSearcher::Equal(asked) => value == *asked,
            ConditionSearcher::NotEqual(asked) => value != *asked,
            ConditionSearcher::Matches(searcher) => searcher.matches(value),
            ConditionSearcher::MatchesNot(searcher) => !searcher.matches(value),
        }
    }
}

ghost use Rattle.std.specs.Prelude.{◌≡◌, List, ℕ};
ghost use Rattle.regex.specs.Strings.{matcher_pattern};
ghost use Rattle.matchers.specs.Patterns.{is_matched};
ghost use Rattle.matchers.specs.Searches.{SearchesFor};

use crate::Pattern;
use std::marker::Model;

/// Asks many values of one pattern, as which it is seen.
#[derive(Drop)]
pub struct PatternSearcher<'p> {
    pub(crate) pattern: &'p Pattern,
    pub(crate) matcher: regex::Matcher<'p>,
}

impl<'p> Model for PatternSearcher<'p> {
    ghost Value = { List ℕ };

    ghost view = { λ s. s.pattern.now };

    ghost invariant = { λ s. SearchesFor (matcher_pattern s.matcher) s.pattern.now };
}

impl<'p> PatternSearcher<'p> {
    /// Tells whether the whole value is matched.
    pub fn matches(&mut self, value: &str) -> bool
        ensures matched { result ≡ is_matched self.old value.now }
        ensures same { self.new ≡ self.old }
    {
        self.matcher.is_match(value)
    }
}

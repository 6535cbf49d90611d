//! Regular expressions of `=~` and `!~`, which have to match the whole value. Which texts are lawful, and what one
//! matches, is what `regex` says; it is not defined anew here.

ghost use Rattle.std.specs.Prelude.{◌≡◌, ◌++◌, List, ℕ, Err, IfOk, OnOk, true, false, codes};
ghost use Rattle.std.specs.String.{string_bytes};
ghost use Rattle.regex.specs.Strings.{regex_pattern};
ghost use Rattle.matchers.specs.Patterns.{anchored_text, is_pattern, is_matched};
ghost use Rattle.matchers.specs.Searches.{SearchesFor};
ghost use Rattle.matchers.specs.declared.pattern_refusal.PatternRefusal.TheVariants.{BadPattern, PatternSize};

use crate::{PatternRefusal, PatternSearcher};
use base::NoMemory;
use label_sets::Text;
use regex::Regex;
use std::alloc::Global;
use std::marker::Model;

/// A pattern that has to match a whole value, built once and seen as its text.
#[derive(Debug, Drop)]
pub struct Pattern {
    alloc: Global,
    text: Text,
    regex: Regex,
}

impl Model for Pattern {
    ghost Value = { List ℕ };

    ghost view = { λ p. p.text };

    ghost invariant = { λ p. SearchesFor (regex_pattern p.regex) p.text };
}

impl Pattern {
    /// Builds the pattern of a text. A lawful pattern may be refused for its size; `regex` alone says when.
    pub fn read(alloc: Global, text: &str) -> Result<Pattern, PatternRefusal>
        ensures value { IfOk result (λ pattern. pattern ≡ text.now) }
        ensures read { OnOk result (is_pattern text.now ≡ true) }
        ensures bad { result ≡ Err BadPattern → is_pattern text.now ≡ false }
        ensures size { result ≡ Err PatternSize → is_pattern text.now ≡ true }
    {
        let composed = anchored_text(alloc, text)?;
        let regex = Regex::new(alloc, composed.as_str())?;
        Ok(Pattern {
            alloc,
            text: Text::from_str(alloc, text)?,
            regex,
        })
    }

    /// What asks many values of this pattern, and takes no more memory.
    pub fn searcher(&self) -> Result<PatternSearcher<'_>, NoMemory>
        ensures { IfOk result (λ searcher. searcher ≡ self.now) }
    {
        let matcher = self.regex.matcher(self.alloc)?;
        Ok(PatternSearcher {
            pattern: self,
            matcher,
        })
    }

    /// Tells whether the whole value is matched.
    pub fn matches(&self, value: &str) -> Result<bool, NoMemory>
        ensures { IfOk result (λ matched. matched ≡ is_matched self.now value.now) }
    {
        let mut matcher = self.regex.matcher(self.alloc)?;
        Ok(matcher.is_match(value))
    }
}

/// The text that is built of a pattern.
fn anchored_text(alloc: Global, text: &str) -> Result<String, NoMemory>
    ensures { IfOk result (λ made. string_bytes made ≡ anchored_text text.now) }
{
    let mut made = String::from_str(alloc, "^(?:")?;
    made.push_str(text)?;
    made.push_str(")$")?;
    Ok(made)
}

//! What a query asks of label sets. It keeps its text, since patterns that were built do not cross threads: a worker
//! reads the text again. A replica label may not be named, as series lose it before they are shown.

ghost use Rattle.std.specs.Prelude.{◌≡◌, ◌⊎◌, List, length, IsTrue, IsOk, IfOk, IfErr, IsErrAnd, MatchResult};
ghost use Rattle.matchers.specs.declared.matcher.Matcher.{Matcher};
ghost use Rattle.matchers.specs.declared.selector_refusal.SelectorRefusal.{SelectorRefusal};
ghost use Rattle.matchers.specs.SelectorRefusals.{IsReadable, IsGivenUp, IsRefused};
ghost use Rattle.matchers.specs.SelectorText.{IsSelectorText, AreFew};
ghost use Rattle.matchers.specs.Selectors.{is_match, is_plain};

use crate::building::build;
use crate::draft::read_draft;
use crate::replicas::first_replica;
use crate::{Matcher, SelectorRefusal};
use base::{List, NoMemory, TryCopy};
use label_sets::{LabelSet, Text, TextList};
use std::alloc::Global;
use std::marker::Model;

/// Matchers, all of which a label set has to meet.
#[derive(Debug, Drop)]
pub struct Selector {
    matchers: Vec<Matcher>,
    /// The text that was read.
    text: Text,
}

impl Model for Selector {
    ghost use Rattle.std.specs.Prelude.{List};
    ghost use Rattle.matchers.specs.declared.matcher.Matcher.{Matcher};
    ghost use Rattle.matchers.specs.SelectorText.{IsSelectorText};

    ghost Value = { List Matcher };

    ghost view = { λ s. s.matchers.items };

    ghost invariant = { λ s. IsSelectorText s.text s.matchers.items };
}

/// A list of selectors.
pub type SelectorList = List<Selector>;

impl Selector {
    /// Reads the whole text of a selector. First the text is read, then the patterns are built in its order, and then the
    /// names of the matchers are compared with those of the replica labels.
    pub fn read(alloc: Global, text: &str, replicas: &TextList) -> Result<Selector, SelectorRefusal>
        // What is read is the selector of the text. All of its patterns are lawful, and it names no replica label.
        ensures found { IfOk result (λ selector. IsReadable text.now replicas.now selector) }
        // Each such text is read, unless memory or the size of a pattern forbids it.
        ensures only { (selector : List Matcher) → IsReadable text.now replicas.now selector
            → MatchResult result (λ read. read ≡ selector) (λ e. IsGivenUp text.now e) }

        // There are no more matchers than the text has bytes, and no texts that are much longer.
        ensures few { IfOk result (AreFew (length text.now)) }

        // Which refusal it is.
        ensures refused { IfErr result (λ e. IsGivenUp text.now e
            ⊎ IsRefused text.now replicas.now e) }
        ensures exact { (refusal : SelectorRefusal) → IsRefused text.now replicas.now refusal
            → IsErrAnd result (λ e. IsGivenUp text.now e ⊎ (e ≡ refusal)) }
    {
        read_selector(alloc, text, replicas)
    }

    /// The text that it was read from.
    pub fn text(&self) -> &str
        ensures { IsSelectorText result.now self.now }
    {
        self.text.as_str()
    }

    /// The matchers in the order of the text, that of the metric name first.
    pub fn matchers(&self) -> &[Matcher]
        ensures { result.now ≡ self.now }
    {
        self.matchers.as_slice()
    }

    /// Tells whether no matcher has a pattern, so that `matches` takes no memory.
    #[tactic(auto, unfolding(crate::specs::Selectors::is_plain))]
    pub fn plain(&self) -> bool
        ensures { result ≡ is_plain self.now }
    {
        self.matchers
            .iter()
            .all(|matcher| !matcher.condition.has_pattern())
    }

    /// Tells whether all matchers accept the labels.
    #[tactic(auto, using(std::proofs::lemmas::List::Folds::list_all_at), unfolding(crate::specs::Selectors::is_match, crate::specs::Selectors::is_plain))]
    pub fn matches(&self, labels: &LabelSet) -> Result<bool, NoMemory>
        ensures value { IfOk result (λ taken. taken ≡ is_match self.now labels.now) }
        ensures plain { IsTrue (is_plain self.now) → IsOk result }
    {
        for matcher in &self.matchers {
            if !matcher.accepts(labels)? {
                return Ok(false);
            }
        }
        Ok(true)
    }
}

fn read_selector(
    alloc: Global,
    text: &str,
    replicas: &TextList,
) -> Result<Selector, SelectorRefusal>
    ensures found { IfOk result (λ selector. IsReadable text.now replicas.now selector) }
    ensures refused { IfErr result (λ e. IsGivenUp text.now e ⊎ IsRefused text.now replicas.now e) }
{
    let draft = read_draft(alloc, text.as_bytes())?;
    let matchers = build(alloc, &draft)?;
    if let Some(name) = first_replica(&matchers, replicas) {
        return Err(SelectorRefusal::ReplicaNamed(name.copy()?));
    }
    Ok(keep_text(alloc, text, matchers)?)
}

/// The selector of these matchers, with the text that was read.
fn keep_text(alloc: Global, text: &str, matchers: Vec<Matcher>) -> Result<Selector, NoMemory>
    requires { IsSelectorText text.now matchers.items }
    ensures { IfOk result (λ selector. selector ≡ matchers.items) }
{
    let text = Text::from_str(alloc, text)?;
    Ok(Selector { matchers, text })
}

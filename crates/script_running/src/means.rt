//! What the workers of a script are lent of it. It crosses threads, which patterns that were built do not: so workers
//! have the texts of the selectors, and read those of their own queries again.

ghost use Rattle.std.specs.Prelude.{◌≡◌, ◌<◌, ℕ, List, Some, IfOk, length, slice_get};
ghost use Rattle.matchers.specs.SelectorRefusals.{IsGivenUp, IsReadable};
ghost use Rattle.matchers.specs.declared.matcher.Matcher.{Matcher};
ghost use Rattle.script_running.specs.Lending.{AreTextsOf};

use crate::ShelfBlock;
use crate::declared::{block_among, find_block};
use base::NoMemory;
use label_sets::{Text, TextList, sample_count};
use matchers::{Selector, SelectorList, SelectorRefusal};
use moment_core::{PartitionList, Rules};
use script_core::{Block, Body, Script, Work};
use std::alloc::Global;
use std::marker::Model;
use std::snapshot::Snapshot;
use ulid_core::Ulid;

/// What the workers of a script are lent: parts of it, and what was read of the shelf for its blocks. All this crosses threads. A selector
/// that was read does not, since it has patterns, so its text is lent.
#[derive(Drop)]
pub struct Means<'a> {
    alloc: Global,
    rules: &'a Rules,
    partitions: &'a PartitionList,
    blocks: &'a [Block],
    shelf: &'a [ShelfBlock],
    /// The texts of the selectors, in their order.
    texts: &'a [Text],
    script: Snapshot<Script>,
}

impl<'a> Model for Means<'a> {
    ghost use Rattle.script_running.specs.Lending.{AreParts, Loan};

    ghost Value = { Loan };

    ghost view = { λ means. record { script = means.script.value; shelf = means.shelf.now } };

    ghost invariant = { λ means. AreParts means.script.value means.shelf.now means.rules.now
        means.partitions.now means.blocks.now means.texts.now };
}

/// The texts of selectors.
pub fn selector_texts(alloc: Global, selectors: &SelectorList) -> Result<TextList, NoMemory>
    ensures { IfOk result (AreTextsOf selectors.now) }
{
    texts_of(alloc, selectors.members())
}

fn texts_of(alloc: Global, selectors: &[Selector]) -> Result<TextList, NoMemory>
    ensures { IfOk result (AreTextsOf selectors.now) }
{
    let mut texts = TextList::new(alloc);
    for selector in selectors {
        let own = Text::from_str(alloc, selector.text())?;
        texts.push(own)?;
    }
    Ok(texts)
}

impl<'a> Means<'a> {
    ghost use Rattle.std.specs.Prelude.{◌≡◌, ◌<◌, Some, IfOk, IsTrue, length, slice_get};
    ghost use Rattle.script_core.specs.Blocks.{declares};
    ghost use Rattle.script_core.specs.Lawful.{AreLawfulRules, IsLawfulBlock, IsLawfulScript};
    ghost use Rattle.lifecycle_core.specs.Held.{declared};
    ghost use Rattle.script_running.specs.Lending.{setting_in};
    ghost use Rattle.script_running.specs.Shelves.{AreAllAtHand, Knows};

    /// What is lent of a script whose selectors have these texts.
    pub fn lend(
        alloc: Global,
        script: &'a Script,
        shelf: &'a [ShelfBlock],
        texts: &'a [Text],
    ) -> Means<'a>
        requires lawful { IsLawfulScript script.now }
        requires at_hand { AreAllAtHand script.now shelf.now }
        requires texts { AreTextsOf script.now.selectors texts.now }
        ensures script { result.script ≡ script.now }
        ensures shelf { result.shelf ≡ shelf.now }
    {
        Means {
            alloc,
            rules: &script.rules,
            partitions: &script.partitions,
            blocks: script.blocks.members(),
            shelf,
            texts,
            script: Snapshot::of(script),
        }
    }

    /// Of which the workers take their memory.
    pub(crate) fn alloc(&self) -> Global {
        self.alloc
    }

    pub(crate) fn rules(&self) -> &Rules
        ensures are { result.now ≡ self.now.script.rules }
        ensures lawful { AreLawfulRules result.now }
    {
        self.rules
    }

    pub(crate) fn partitions(&self) -> &PartitionList
        ensures are { result.now ≡ self.now.script.partitions }
        ensures lawful { IsLawfulScript self.now.script }
    {
        self.partitions
    }

    pub(crate) fn shelf(&self) -> &[ShelfBlock]
        ensures { result.now ≡ self.now.shelf }
    {
        self.shelf
    }

    /// The declared block of a ULID.
    pub(crate) fn block(&self, ulid: Ulid) -> &Block
        requires { IsTrue (declares self.now.script.blocks ulid) }
        ensures found { declared self.now.script ulid ≡ Some result.now }
        ensures lawful { IsLawfulBlock result.now }
        ensures known { Knows (setting_in self.now) self.now.shelf result.now }
    {
        block_among(&self.script, self.blocks, ulid)
    }

    /// How many samples an inline block has that a task ships. All else is as heavy as can be.
    pub(crate) fn weight(&self, work: &Work) -> u64 {
        let Work::Upload(ulid, _) = work else {
            return u64::MAX;
        };
        match find_block(self.blocks, *ulid) {
            Some(block) => samples_in(&block.body),
            None => 0,
        }
    }

    /// The selector at a place, which is read from its text.
    pub(crate) fn selector(&self, place: usize) -> Result<Selector, NoMemory>
        requires { place < length self.now.script.selectors }
        ensures { IfOk result
            (λ selector. slice_get self.now.script.selectors place ≡ Some selector) }
    {
        read_at(self.alloc, self.texts, &self.rules.replicas, place)
    }
}

/// How many samples an inline block has. That of the shelf may have any number.
fn samples_in(body: &Body) -> u64 {
    match body {
        Body::Inline { series, .. } => sample_count(series.members()),
        Body::OnShelf => u64::MAX,
    }
}

/// What is wanting where a text was read before: memory, or that the size of a pattern is taken again, which nobody promises.
fn given_up(refusal: SelectorRefusal) -> NoMemory
    requires { (text : List ℕ) × IsGivenUp text refusal }
{
    match &refusal {
        SelectorRefusal::NoMemory | SelectorRefusal::PatternSize(_) => NoMemory,
        _ => unreachable!(),
    }
}

/// Reads the text at a place, of a selector that was read once.
fn read_at(
    alloc: Global,
    texts: &[Text],
    replicas: &TextList,
    place: usize,
) -> Result<Selector, NoMemory>
    requires place { place < length texts.now }
    requires read { (text : List ℕ) × (selector : List Matcher)
        × (slice_get texts.now place ≡ Some text) × IsReadable text replicas.now selector }
    ensures { (text : List ℕ) (selector : List Matcher) → slice_get texts.now place ≡ Some text
        → IsReadable text replicas.now selector → IfOk result (λ read. read ≡ selector) }
{
    match Selector::read(alloc, texts[place].as_str(), replicas) {
        Ok(selector) => Ok(selector),
        Err(refusal) => Err(given_up(refusal)),
    }
}

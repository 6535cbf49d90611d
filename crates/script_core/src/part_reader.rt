//! Reading a script that comes part by part, so that its text need not stand anywhere as a whole.

ghost use Rattle.std.specs.Prelude.{◌≡◌, ◌<◌, ◌≤◌, ◌+◌};
ghost use Rattle.script_fields.specs.Limits.{longest_text};

use crate::Script;
use crate::draft::Draft;
use crate::reader::{LONGEST_TEXT, read_line};
use crate::series_parts::{line_size, put_series};
use label_sets::SampleList;
use moment_core::Rules;
use script_fields::{LineCause, ScriptRefusal, cut_line};
use std::alloc::Global;

/// What was read of a script so far. After a refusal it is of no use.
#[derive(Drop)]
pub struct PartReader {
    draft: Draft,
    /// How many lines were read.
    lines: u32,
    /// How many bytes they have at most.
    bytes: usize,
    ghost few: { lines ≤ bytes },
    ghost short: { bytes ≤ longest_text },
}

impl PartReader {
    ghost use Rattle.std.specs.Prelude.{◌≡◌, ◌⊎◌, ◌<◌, ◌≤◌, ◌+◌, length, ℕ, List, [], ◌∷◌, ◌++◌, IfErr, IfOk, OnOk, IsTrue};
    ghost use Rattle.label_sets.specs.declared.label.Label.{Label};
    ghost use Rattle.base.specs.Reading.{Gives};
    ghost use Rattle.script_fields.specs.Limits.{longest_text};
    ghost use Rattle.script_core.specs.Counts.{members_of_script};
    ghost use Rattle.script_core.specs.Reading.{script_of};
    ghost use Rattle.script_fields.specs.declared.script_refusal.ScriptRefusal.TheVariants as refusals;
    ghost use Rattle.std.specs.List.{list_all};
    ghost use Rattle.script_core.specs.Lawful.{IsLawfulScript};
    ghost use Rattle.script_core.specs.Parts.{AreNextGivenUp, AreSeriesParts, HasRead, IsEnded, IsPartRefused, Reads, series_text};
    ghost use Rattle.script_core.specs.Spelling.{Spells};

    /// Nothing was read.
    pub fn new(alloc: Global) -> PartReader
        ensures { HasRead result [] }
    {
        PartReader {
            draft: Draft::new(alloc, Rules::standard(alloc)),
            lines: 0,
            bytes: 0,
        }
    }

    /// Reads lines, the last of which has to end with a newline as each other does.
    pub fn read_lines(&mut self, alloc: Global, text: &[u8]) -> Result<(), ScriptRefusal>
        ensures read { OnOk result (Reads self.old self.new text.now) }
        ensures refused { IsEnded text.now → IfErr result (λ e. AreNextGivenUp self.old text.now e
            ⊎ IsPartRefused self.old text.now e) }
    {
        let mut left = text;
        while !left.is_empty() {
            let (line, rest) = cut_line(left);
            self.count(line.len() + 1)?;
            if line.len() == left.len() {
                return Err(ScriptRefusal::BadLine(self.lines, LineCause::BadShape));
            }
            read_line(&mut self.draft, alloc, self.lines, line)?;
            left = rest;
        }
        Ok(())
    }

    /// Reads the line `series LABELS TIME:PATTERN ..` of these labels and samples, of which no text is made.
    pub fn read_series(
        &mut self,
        alloc: Global,
        labels: &[u8],
        samples: SampleList,
    ) -> Result<(), ScriptRefusal>
        ensures read { OnOk result (Reads self.old self.new (series_text labels.now samples)) }
        ensures refused { (set : List Label) → AreSeriesParts labels.now set samples
            → IfErr result (λ e. (e ≡ refusals.NoMemory)
            ⊎ IsPartRefused self.old (series_text labels.now samples) e) }
    {
        self.count(line_size(labels.len(), samples.len())?)?;
        match put_series(&mut self.draft, alloc, labels, samples) {
            Ok(()) => Ok(()),
            Err(refusal) => Err(refusal.of_line(self.lines)),
        }
    }

    /// One line more, of at most so many bytes.
    fn count(&mut self, bytes: usize) -> Result<(), ScriptRefusal>
        requires { 0 < bytes }
        ensures draft { self.new.draft ≡ self.old.draft }
        ensures lines { OnOk result (self.new.lines ≡ self.old.lines + 1) }
        ensures bytes { OnOk result (self.new.bytes ≡ self.old.bytes + bytes) }
        ensures refused { IfErr result (λ e. (e ≡ refusals.TooLong)
            × (longest_text < self.old.bytes + bytes)) }
    {
        if bytes > LONGEST_TEXT - self.bytes {
            return Err(ScriptRefusal::TooLong);
        }
        self.bytes += bytes;
        self.lines += 1;
        Ok(())
    }

    /// Lets go of what was read, as after a refusal.
    pub fn discard(self) {
        drop(self);
    }

    /// The script of all that was read.
    pub fn finish(self, alloc: Global) -> Result<Script, ScriptRefusal>
        ensures spelled { (text : List ℕ) → HasRead self text
            → IfOk result (λ script. Spells text script) }
        ensures lawful { (text : List ℕ) → HasRead self text
            → IfOk result (λ script. IsLawfulScript script) }
        ensures bounded { (text : List ℕ) → HasRead self text
            → IfOk result (λ script. members_of_script script ≤ length text) }
        ensures gives { (text : List ℕ) → HasRead self text
            → Gives refusals.NoMemory (λ script. script) result (script_of text) }
    {
        self.draft.finish(alloc)
    }
}

//! What may be wrong with a line, by the numbers that reports name and `docs/SCRIPT.md` explains. A line is tested for
//! them in the order of their numbers, but for the size of a pattern, and the first counts.

ghost use Rattle.std.specs.Prelude.{◌≡◌};
ghost use Rattle.base.specs.Reading.{unless};
ghost use Rattle.script_fields.specs.Wording.{cause_number};
ghost use Rattle.script_fields.specs.declared.line_refusal.LineRefusal.TheVariants.{Bad};

use crate::line_refusal::LineRefusal;

/// What is wrong with a line of a script. Of several causes in one line the first in this order is given, but that the size of a
/// pattern is looked at where the pattern is read.
#[derive(Clone, Copy, Debug, PartialEq, Eq)]
pub enum LineCause {
    /// The line is not UTF-8.
    NotText = 1,
    /// The first word, or the name of a rule, is not known.
    UnknownWord,
    /// The fields are too few or too many, or a space is one too many.
    BadShape,
    /// A number is not decimal or out of its range.
    BadNumber,
    /// The moment is none.
    BadMomentText,
    /// The span is none, or a tick of more than a day.
    BadSpanText,
    /// The ULID is none.
    BadUlidText,
    /// The name is none.
    BadName,
    /// The label set is none.
    BadLabelText,
    /// A sample is not a time, a colon and a pattern.
    BadSample,
    /// The times of the samples do not rise.
    FallingTimes,
    /// A sample's time is not among those of the block.
    OutsideBlock,
    /// The block has a series with these labels already.
    RepeatedSeries,
    /// The block has no series.
    EmptyInline,
    /// The series does not follow its block.
    NoBlock,
    /// The task comes before the first phase.
    NoPhase,
    /// The line comes after the first phase has begun.
    LateLine,
    /// The range of times is empty.
    BadTimes,
    /// The ULID is one of those that are kept for compacted blocks.
    ReservedUlid,
    /// No gateway of this name was declared.
    UnknownGateway,
    /// A gateway of this name was declared before.
    RepeatedGateway,
    /// The selector is none.
    BadSelectorText,
    /// A pattern of the selector is none.
    BadPatternText,
    /// The selector names a replica label.
    ReplicaNamed,
    /// A pattern of the selector is too large.
    PatternSizeText,
}

impl LineCause {
    /// The number by which reports name the cause, from 1.
    pub fn number(self) -> u8
        ensures { result ≡ cause_number self }
    {
        self as u8
    }

    /// Refuses with this cause where the test fails.
    pub fn unless(self, holds: bool) -> Result<(), LineRefusal>
        ensures { result ≡ unless holds (Bad self) }
    {
        LineRefusal::Bad(self).unless(holds)
    }
}

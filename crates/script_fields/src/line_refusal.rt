//! Why a line was refused, by those who read it and do not know its number. Whoever counts the lines adds that.

ghost use Rattle.std.specs.Prelude.{◌≡◌};
ghost use Rattle.script_fields.specs.declared.line_refusal.LineRefusal.TheVariants.{Bad, NoMemory};

use crate::{LineCause, ScriptRefusal};
use base::NoMemory;
use std::alloc::{AllocError, AllocFailed};

/// Why a line was refused, without its number.
#[derive(Clone, Copy, Debug, PartialEq, Eq)]
pub enum LineRefusal {
    Bad(LineCause),
    FallingMoment,
    UnknownBlock,
    BlockChanged,
    BadRules,
    NeverSynced,
    TwoCompactors,
    TooMany,
    NoMemory,
}

impl LineRefusal {
    ghost use Rattle.std.specs.Prelude.{◌≡◌};
    ghost use Rattle.base.specs.Reading.{unless};
    ghost use Rattle.script_fields.specs.LineRefusals.{of_line};

    /// The refusal of the line with this number.
    pub fn of_line(self, line: u32) -> ScriptRefusal
        ensures { result ≡ of_line line self }
    {
        match self {
            LineRefusal::Bad(cause) => ScriptRefusal::BadLine(line, cause),
            LineRefusal::FallingMoment => ScriptRefusal::FallingMoment(line),
            LineRefusal::UnknownBlock => ScriptRefusal::UnknownBlock(line),
            LineRefusal::BlockChanged => ScriptRefusal::BlockChanged(line),
            LineRefusal::BadRules => ScriptRefusal::BadRules(line),
            LineRefusal::NeverSynced => ScriptRefusal::NeverSynced(line),
            LineRefusal::TwoCompactors => ScriptRefusal::TwoCompactors(line),
            LineRefusal::TooMany => ScriptRefusal::TooMany(line),
            LineRefusal::NoMemory => ScriptRefusal::NoMemory,
        }
    }

    /// Refuses where the test fails.
    pub fn unless(self, holds: bool) -> Result<(), LineRefusal>
        ensures { result ≡ unless holds self }
    {
        if holds { Ok(()) } else { Err(self) }
    }
}

impl From<LineCause> for LineRefusal {
    ghost from_gives = { λ cause e. e ≡ Bad cause };

    fn from(cause: LineCause) -> Self {
        LineRefusal::Bad(cause)
    }
}

impl From<NoMemory> for LineRefusal {
    ghost from_gives = { λ _ e. e ≡ NoMemory };

    fn from(_: NoMemory) -> Self {
        LineRefusal::NoMemory
    }
}

impl From<AllocError> for LineRefusal {
    ghost from_gives = { λ _ e. e ≡ NoMemory };

    fn from(_: AllocError) -> Self {
        LineRefusal::NoMemory
    }
}

impl<T: Drop> From<AllocFailed<T>> for LineRefusal {
    ghost from_gives = { λ _ e. e ≡ NoMemory };

    fn from(_: AllocFailed<T>) -> Self {
        LineRefusal::NoMemory
    }
}

ghost use Rattle.std.specs.Prelude.{◌≡◌};
ghost use Rattle.moment_core.specs.declared.refusal.MomentRefusal.TheVariants.{NoMemory};

use base::NoMemory;

/// Why a text is no moment.
#[derive(Clone, Copy, Debug, PartialEq, Eq)]
pub enum MomentRefusal {
    BadMoment,
    NoMemory,
}

impl From<NoMemory> for MomentRefusal {
    ghost from_gives = { λ _ e. e ≡ NoMemory };

    fn from(_: NoMemory) -> Self {
        MomentRefusal::NoMemory
    }
}

/// The text is no span.
#[derive(Clone, Copy, Debug, PartialEq, Eq)]
pub struct BadSpan;

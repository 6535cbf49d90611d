use std::alloc::AllocError;

/// Why the script was not read to its end.
#[derive(Clone, Copy, Debug, PartialEq, Eq)]
pub enum InputRefusal {
    /// The source failed.
    Fault,
    /// The source has more bytes than a script may have.
    TooLong,
    NoMemory,
}

impl From<AllocError> for InputRefusal {
    ghost use Rattle.std.specs.Prelude.{◌≡◌};
    ghost use Rattle.call_verdicts.specs.declared.input_refusal.InputRefusal.TheVariants as refusal;

    ghost from_gives = { λ _ e. e ≡ refusal.NoMemory };

    fn from(_: AllocError) -> Self {
        InputRefusal::NoMemory
    }
}

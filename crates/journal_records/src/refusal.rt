use base::NoMemory;

/// Why no record was written.
#[derive(Clone, Copy, Debug, PartialEq, Eq)]
pub enum RecordRefusal {
    /// The record would have more bytes than it may.
    TooLarge,
    NoMemory,
}

impl From<NoMemory> for RecordRefusal {
    ghost use Rattle.std.specs.Prelude.{◌≡◌};
    ghost use Rattle.journal_records.specs.declared.refusal.RecordRefusal.TheVariants.{NoMemory};

    ghost from_gives = { λ _ refusal. refusal ≡ NoMemory };

    fn from(_: NoMemory) -> Self {
        RecordRefusal::NoMemory
    }
}

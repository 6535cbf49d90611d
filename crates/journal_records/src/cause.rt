use base::NoMemory;

/// Why bytes are no record. A place counts bytes of the record from 0.
#[derive(Clone, Copy, Debug, PartialEq, Eq)]
pub enum RecordCause {
    /// There are more bytes than a record may have.
    TooLong,
    /// The first eight bytes are not a record's.
    BadMagic,
    /// The bytes end inside the number, the ULID or the counted bytes that begin here.
    Short(u64),
    /// The byte is unknown, or its operation cannot have such a reply.
    BadKind(u64),
    /// The counted bytes that begin here are not UTF-8.
    BadText(u64),
    /// The text that begins here is no key.
    BadKey(u64),
    /// A byte stands behind the sum.
    Trailing(u64),
    /// The sum that is kept is not that of the bytes before it.
    BadSum { kept: u32, computed: u32 },
    NoMemory,
}

impl From<NoMemory> for RecordCause {
    ghost use Rattle.std.specs.Prelude.{◌≡◌};
    ghost use Rattle.journal_records.specs.declared.cause.RecordCause.TheVariants.{NoMemory};

    ghost from_gives = { λ _ cause. cause ≡ NoMemory };

    fn from(_: NoMemory) -> Self {
        RecordCause::NoMemory
    }
}

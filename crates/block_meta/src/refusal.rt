ghost use Rattle.std.specs.Prelude.{◌≡◌};
ghost use Rattle.block_meta.specs.declared.refusal.MetaRefusal.TheVariants.{NoMemory as WithoutMemory};

use label_sets::Text;

/// Why a text is no meta or no deletion mark. A field is named by the last part of its path.
#[derive(Debug, PartialEq, Eq, Drop)]
pub enum MetaRefusal {
    /// The text is no JSON object.
    NotJson,
    /// A field that is needed is absent or `null`.
    MissingField(Text),
    /// A field has a value of another kind.
    WrongKind(Text),
    /// A version is not the number 1.
    BadVersion,
    /// The times do not ascend, or one is more than 2^62 from zero.
    BadTimes,
    /// A text is no ULID.
    BadUlid(Text),
    /// A label has an empty name or an empty value.
    BadLabels,
    NoMemory,
}

impl From<base::NoMemory> for MetaRefusal {
    ghost from_gives = { λ _ e. e ≡ WithoutMemory };

    fn from(_: base::NoMemory) -> Self {
        MetaRefusal::NoMemory
    }
}

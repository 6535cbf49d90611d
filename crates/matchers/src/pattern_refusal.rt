ghost use Rattle.std.specs.Prelude.{◌≡◌};
ghost use Rattle.matchers.specs.Patterns.{refusal_of};
ghost use Rattle.matchers.specs.declared.pattern_refusal.PatternRefusal.TheVariants.{NoMemory};

use base::NoMemory;

/// Why a text was not built as a pattern.
#[derive(Clone, Copy, Debug, PartialEq, Eq)]
pub enum PatternRefusal {
    /// It is no pattern, or it nests too deep.
    BadPattern,
    /// It is a pattern, and passes the limit on the size of what is built.
    PatternSize,
    NoMemory,
}

impl From<regex::Error> for PatternRefusal {
    ghost from_gives = { λ given e. e ≡ refusal_of given };

    fn from(error: regex::Error) -> Self {
        match error {
            regex::Error::Syntax(_) => PatternRefusal::BadPattern,
            regex::Error::CompiledTooBig | regex::Error::Internal => PatternRefusal::PatternSize,
            regex::Error::OutOfMemory => PatternRefusal::NoMemory,
        }
    }
}

impl From<NoMemory> for PatternRefusal {
    ghost from_gives = { λ _ e. e ≡ NoMemory };

    fn from(_: NoMemory) -> Self {
        PatternRefusal::NoMemory
    }
}

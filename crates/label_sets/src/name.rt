ghost use Rattle.std.specs.Prelude.{◌≡◌};
ghost use Rattle.std.specs.List.{list_all};
ghost use Rattle.label_sets.specs.Notation.{is_name, is_name_start, is_name_byte};

/// Whether a text has the form of a name: a letter or `_`, and then letters, digits or `_`, all ASCII.
#[tactic(auto, unfolding(crate::specs::Notation::is_name))]
pub fn is_name(text: &str) -> bool
    ensures { result ≡ is_name text.now }
{
    match text.as_bytes() {
        [first, others @ ..] => is_name_start(*first) && are_name_bytes(others),
        [] => false,
    }
}

fn are_name_bytes(bytes: &[u8]) -> bool
    ensures { result ≡ list_all is_name_byte bytes.now }
{
    bytes.iter().all(|byte| is_name_byte(*byte))
}

/// Whether a name may begin with a byte: a letter or `_`, in ASCII.
pub fn is_name_start(byte: u8) -> bool
    ensures { result ≡ is_name_start byte }
{
    byte.is_ascii_alphabetic() || byte == b'_'
}

/// Whether a byte may stand in a name behind its first one: a letter, a digit or `_`, in ASCII.
pub fn is_name_byte(byte: u8) -> bool
    ensures { result ≡ is_name_byte byte }
{
    is_name_start(byte) || byte.is_ascii_digit()
}

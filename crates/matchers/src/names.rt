//! The bytes of metric names.

ghost use Rattle.std.specs.Prelude.{◌≡◌};
ghost use Rattle.matchers.specs.Selectors.{is_metric_start, is_metric_byte};

pub(crate) fn is_metric_start(byte: u8) -> bool
    ensures { result ≡ is_metric_start byte }
{
    byte.is_ascii_alphabetic() || byte == b'_' || byte == b':'
}

pub(crate) fn is_metric_byte(byte: u8) -> bool
    ensures { result ≡ is_metric_byte byte }
{
    is_metric_start(byte) || byte.is_ascii_digit()
}

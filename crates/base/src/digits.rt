ghost use Rattle.std.specs.Prelude.{◌≡◌, ◌≤◌, length, true};
ghost use Rattle.std.specs.Char.{is_ascii_digit};
ghost use Rattle.std.specs.List.{list_all};
ghost use Rattle.std.specs.Str.Parse.{digits_value};
ghost use Rattle.base.specs.ShortNumber.{few_digits, number_of};

/// Each number of so many digits fits into every integer of 64 bits.
pub(crate) const FEW_DIGITS: usize = 15;

/// The number of 1 to `most` decimal digits, of which the first may be zeros.
pub fn short_number(digits: &[u8], most: usize) -> Option<u64>
    requires { most ≤ few_digits }
    ensures { result ≡ number_of most digits.now }
{
    if digits.is_empty() || digits.len() > most || !all_digits(digits) {
        return None;
    }
    Some(value_of(digits))
}

/// Whether all are decimal digits.
pub fn all_digits(text: &[u8]) -> bool
    ensures { result ≡ list_all is_ascii_digit text.now }
{
    text.iter().all(|byte| byte.is_ascii_digit())
}

/// The number of at most `FEW_DIGITS` digits, made with no test.
pub(crate) fn value_of(digits: &[u8]) -> u64
    requires count { length digits.now ≤ few_digits }
    requires decimal { list_all is_ascii_digit digits.now ≡ true }
    ensures { result ≡ digits_value 10 digits.now }
{
    let mut number = 0u64;
    for digit in digits {
        number = number * 10 + u64::from(*digit - b'0');
    }
    number
}

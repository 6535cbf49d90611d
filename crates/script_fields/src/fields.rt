//! Lines of a text, and the fields of a line, which single spaces keep apart.

ghost use Rattle.std.specs.Prelude.{◌≡◌, ◌<◌, length, drop, position, option_copied};
ghost use Rattle.std.specs.List.{before_first, after_first};
ghost use Rattle.base.specs.Reading.{Answers};
ghost use Rattle.script_fields.specs.Fields.{is_newline, is_silent, next_field, only_field, after_space};

use crate::LineCause;
use memchr::memchr;

/// The line at the front of a text, and the text after its newline.
pub fn cut_line(text: &[u8]) -> (&[u8], &[u8])
    requires { 0 < length text.now }
    ensures line { result.0.now ≡ before_first is_newline text.now }
    ensures rest { result.1.now ≡ after_first is_newline text.now }
    ensures shorter { length result.1.now < length text.now }
{
    match newline_place(text) {
        Some(end) => (&text[..end], &text[end + 1..]),
        None => (text, &text[text.len()..]),
    }
}

fn newline_place(text: &[u8]) -> Option<usize>
    ensures { result ≡ position is_newline text.now }
{
    memchr(b'\n', text)
}

/// Whether a line says nothing: it is empty, or a comment.
pub fn is_silent(line: &[u8]) -> bool
    ensures { result ≡ is_silent line.now }
{
    line.is_empty() || line[0] == b'#'
}

/// The field at the front of what is left of a line, and what is left after the space behind it. Where nothing is left
/// the field is empty.
#[tactic(auto, unfolding(crate::specs::Fields::next_field))]
pub fn next_field(left: Option<&str>) -> (&str, Option<&str>)
    ensures { (result.0.now, option_copied result.1) ≡ next_field (option_copied left.entry) }
{
    let Some(text) = left else {
        return ("", None);
    };
    match text.split_once(' ') {
        Some((field, rest)) => (field, Some(rest)),
        None => (text, None),
    }
}

/// The one field that is left of a line.
#[tactic(auto, unfolding(crate::specs::Fields::only_field))]
pub fn only_field(left: Option<&str>) -> Result<&str, LineCause>
    ensures { Answers (λ field. field.now) result (only_field (option_copied left.entry)) }
{
    let (field, rest) = next_field(left);
    if field.is_empty() || rest.is_some() {
        return Err(LineCause::BadShape);
    }
    Ok(field)
}

/// What is left of a text behind the space at a place.
#[tactic(auto, unfolding(crate::specs::Fields::after_space))]
pub fn after_space(text: &str, place: usize) -> Result<&str, LineCause>
    ensures { Answers (λ rest. rest.now) result (after_space (drop place text.now)) }
{
    match text.as_bytes().get(place) {
        Some(b' ') => Ok(&text[place + 1..]),
        _ => Err(LineCause::BadShape),
    }
}

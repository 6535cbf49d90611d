//! What the rows print. Want of memory, and a line that cannot be written, show as what is lacking in the output, by which the
//! row fails; so no call here hands them on.
ghost use Rattle.std.specs.Prelude.{◌≤◌};

use std::{fmt, str};
use ulid_core::Ulid;

/// Prints a line.
pub(crate) fn say(rt: &HostRuntime, line: &str) {
    let _ = rt.println(line);
}

/// Prints a text with no line's end behind it.
pub(crate) fn put(rt: &HostRuntime, text: &str) {
    let _ = rt.print(text);
}

/// Prints a blank, and a value as it is told for debugging.
pub(crate) fn show<T: fmt::Debug>(rt: &HostRuntime, value: &T) {
    let _ = print!(rt; " {value:?}");
}

/// Prints a blank, and the number that a ULID of 1970 stands for.
pub(crate) fn put_number(rt: &HostRuntime, ulid: Ulid) {
    let _ = print!(rt; " {}", ulid.entropy());
}

/// Prints bytes that are a text on a line.
pub(crate) fn say_text(rt: &HostRuntime, text: &[u8]) {
    say(rt, str::from_utf8(text).unwrap_or("no text"));
}

/// The first word of a text, and what stands behind the blank after it.
pub(crate) fn cut(text: &str) -> (&str, &str) {
    text.split_once(' ').unwrap_or((text, ""))
}

/// What stands in a text before the first of these marks, and behind it.
pub(crate) fn cut_at(text: &str, mark: char) -> (&str, &str) {
    text.split_once(mark).unwrap_or((text, ""))
}

/// A number of milliseconds, or 0.
pub(crate) fn number_of(text: &str) -> u64 {
    text.parse().unwrap_or(0)
}

/// How many names a page may have, at least one.
pub(crate) fn limit_of(text: &str) -> u32
    ensures { 1 ≤ result }
{
    match text.parse::<u32>() {
        Ok(limit) if limit > 0 => limit,
        _ => 1,
    }
}

//! What the rows print. Want of memory, and a line that cannot be written, show as what is lacking in the output, by which the
//! row fails; so no call here hands them on.
use std::{fmt, str};

/// Prints a line.
pub(crate) fn say(rt: &HostRuntime, line: &str) {
    let _ = rt.println(line);
}

/// Prints a text with no line's end behind it.
pub(crate) fn put(rt: &HostRuntime, text: &str) {
    let _ = rt.print(text);
}

/// Prints a value as it is told for debugging.
pub(crate) fn show<T: fmt::Debug>(rt: &HostRuntime, value: &T) {
    let _ = println!(rt; "{value:?}");
}

/// Prints bytes that are a text.
pub(crate) fn say_text(rt: &HostRuntime, text: &[u8]) {
    say(rt, str::from_utf8(text).unwrap_or("no text"));
}

/// The first word of a text, and what stands behind the blank after it.
pub(crate) fn cut(text: &str) -> (&str, &str) {
    text.split_once(' ').unwrap_or((text, ""))
}

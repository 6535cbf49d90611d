//! What the rows print. A line that cannot be written shows as what is lacking in the output, by which the row fails; so no call
//! here hands it on.
use label_sets::Text;
use std::{fmt, str};

/// Prints a line.
pub(crate) fn say(rt: &HostRuntime, line: &str) {
    let _ = rt.println(line);
}

/// Prints a text with no line's end behind it.
pub(crate) fn put(rt: &HostRuntime, text: &str) {
    let _ = rt.print(text);
}

/// Prints a value as it is told for debugging.
pub(crate) fn show<T: fmt::Debug>(rt: &HostRuntime, value: &T) {
    let _ = println!(rt; "{value:?}");
}

/// Prints a word and a number with no line's end behind them.
pub(crate) fn put_number(rt: &HostRuntime, word: &str, number: u64) {
    let _ = print!(rt; "{word}{number}");
}

/// Prints each line of a text two blanks further in.
pub(crate) fn say_lines(rt: &HostRuntime, text: &str) {
    for line in text.lines() {
        put(rt, "  ");
        say(rt, line);
    }
}

/// Ends a line with names, each behind a blank.
pub(crate) fn say_names(rt: &HostRuntime, names: &[Text]) {
    for name in names {
        put(rt, " ");
        put(rt, name.as_str());
    }
    say(rt, "");
}

/// The first word of a text, and what stands behind the blank after it.
pub(crate) fn cut(text: &str) -> (&str, &str) {
    text.split_once(' ').unwrap_or((text, ""))
}

/// The text of bytes, where they are one.
pub(crate) fn text_of(bytes: &[u8]) -> &str {
    str::from_utf8(bytes).unwrap_or("no text")
}

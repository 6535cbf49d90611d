//! What the rows print. Want of memory, and a line that cannot be written, show as what is lacking in the output, by which the
//! row fails; so no call here hands them on.
use base::TryCopy;
use label_sets::LabelSet;
use std::{fmt, fs, str};

/// Prints a line.
pub(crate) fn say(rt: &HostRuntime, line: &str) {
    let _ = rt.println(line);
}

/// Prints a text with no line's end behind it.
pub(crate) fn put(rt: &HostRuntime, text: &str) {
    let _ = rt.print(text);
}

/// Prints a word, and a value as it is told for debugging, with no line's end behind them.
pub(crate) fn tell<T: fmt::Debug>(rt: &HostRuntime, word: &str, value: &T) {
    let _ = print!(rt; "{word}{value:?}");
}

/// Prints a value as it is told for debugging, on a line.
pub(crate) fn show<T: fmt::Debug>(rt: &HostRuntime, value: &T) {
    tell(rt, "", value);
    say(rt, "");
}

/// Prints a value, and how many there are.
pub(crate) fn show_of<T: fmt::Debug>(rt: &HostRuntime, value: &T, count: usize) {
    let _ = println!(rt; "{value:?} of {count}");
}

/// Prints a label set with no line's end behind it.
pub(crate) fn put_labels(rt: &HostRuntime, labels: &LabelSet) {
    let mut text = Vec::new(rt.alloc());
    let _ = labels.write(&mut text);
    put(rt, str::from_utf8(text.as_slice()).unwrap_or("no text"));
}

/// Prints bytes that are a text.
pub(crate) fn say_text(rt: &HostRuntime, text: &[u8]) {
    say(rt, str::from_utf8(text).unwrap_or("no text"));
}

/// Prints bytes in hexadecimal digits.
pub(crate) fn say_hex(rt: &HostRuntime, bytes: &[u8]) {
    match hex::encode(rt.alloc(), bytes) {
        Ok(digits) => say(rt, digits.as_str()),
        Err(_) => say(rt, "no memory"),
    }
}

/// The first word of a text, and what stands behind the blank after it.
pub(crate) fn cut(text: &str) -> (&str, &str) {
    text.split_once(' ').unwrap_or((text, ""))
}

/// What stands before the first of these marks in a text, and what stands behind it.
pub(crate) fn cut_at(text: &str, mark: char) -> (&str, &str) {
    text.split_once(mark).unwrap_or((text, ""))
}

/// The bytes of a file, or none.
pub(crate) fn file_of(rt: &HostRuntime, path: &str) -> Vec<u8> {
    match fs::read(rt, path) {
        Ok(bytes) => bytes,
        Err(_) => Vec::new(rt.alloc()),
    }
}

/// The copy of a value that is gone.
pub(crate) fn copied<T: TryCopy>(value: T) -> Option<T> {
    let copy = value.copy();
    drop(value);
    copy.ok()
}

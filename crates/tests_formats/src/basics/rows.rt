//! Rows of numbers, moments, spans, ULIDs and keys: what a text is read as, and that what is written of it is that
//! text.

use crate::basics::bytes::print_bytes;
use crate::basics::written::print_written;
use crate::says::{copied, cut, put, say, show};
use base::{read_signed, read_unsigned};
use block_keys::Key;
use moment_core::{Moment, Rules, Span};
use ulid_core::Ulid;

/// Prints what a text is.
pub(crate) fn print_call(rt: &HostRuntime, kind: &str, text: &str) {
    let (one, other) = cut(text);
    match kind {
        "unsigned" => show(rt, &read_unsigned(text)),
        "signed" => show(rt, &read_signed(text)),
        "moment" => show(rt, &Moment::read(rt.alloc(), text)),
        "span" => show(rt, &Span::read(text)),
        "ulid" => print_ulid(rt, text),
        "key" => print_key(rt, text),
        "ulids" => show(rt, &are_ordered(Ulid::read(one), Ulid::read(other))),
        "keys" => show(rt, &are_ordered(Key::read(one), Key::read(other))),
        "written" => print_written(rt),
        "rules" => show(rt, &are_kept(copied(Rules::standard(rt.alloc())))),
        _ => print_bytes(rt, kind, text),
    }
}

/// Prints the parts of a ULID and the text that is written of it.
fn print_ulid(rt: &HostRuntime, text: &str) {
    match Ulid::read(text) {
        Ok(ulid) => {
            let _ = print!(rt; "{} and {:x}, written ", ulid.time(), ulid.entropy());
            match ulid.to_string(rt.alloc()) {
                Ok(text) => say(rt, text.as_str()),
                Err(_) => say(rt, "no memory"),
            }
        }
        Err(refusal) => show(rt, &refusal),
    }
}

/// Prints the text that is written of a key.
fn print_key(rt: &HostRuntime, text: &str) {
    match Key::read(text) {
        Ok(key) => {
            put(rt, "written ");
            match key.text(rt.alloc()) {
                Ok(text) => say(rt, text.as_str()),
                Err(_) => say(rt, "no memory"),
            }
        }
        Err(refusal) => show(rt, &refusal),
    }
}

/// Whether two values were read, the first of which is less than the second.
fn are_ordered<T: PartialOrd + Drop, E: Drop>(one: Result<T, E>, other: Result<T, E>) -> bool {
    match (one, other) {
        (Ok(one), Ok(other)) => one < other,
        _ => false,
    }
}

/// Whether the copy of the standard rules has what they have.
fn are_kept(copy: Option<Rules>) -> bool {
    match &copy {
        Some(rules) => rules.upload == rules.consistency && rules.replicas.len() == 0,
        None => false,
    }
}

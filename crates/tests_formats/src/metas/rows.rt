//! Rows of metas and marks. Most are a lawful text with a member more or another one, and say just that: of a key that
//! occurs twice the last value counts.

use crate::metas::fields::print_fields;
use crate::says::{copied, file_of, put, say};
use base::NoMemory;
use block_meta::{DeletionMark, Meta, MetaRefusal};
use wire_bytes::Blob;

/// A lawful meta without its last brace.
const LAWFUL: &str =
    r#"{"version":1,"ulid":"0000000000000000000000000A","minTime":0,"maxTime":1,"stats":{},"compaction":{"level":1}"#;

/// A lawful mark without its last brace.
const LAWFUL_MARK: &str = r#"{"version":1,"id":"0000000000000000000000000A","deletion_time":1800"#;

/// Prints what a text is.
pub(crate) fn print_call(rt: &HostRuntime, kind: &str, text: &str) {
    match kind {
        "meta" | "mark" => print_text(rt, kind, text.as_bytes()),
        "meta+" => print_longer(rt, "meta", LAWFUL, text),
        "mark+" => print_longer(rt, "mark", LAWFUL_MARK, text),
        "bytes" => print_text(rt, "meta", b"{\"version\":\"\xff\"}"),
        "file" => print_text(rt, kind, file_of(rt, text).as_slice()),
        _ => say(rt, "no call"),
    }
}

/// Prints what an object is with other members behind the first ones.
fn print_longer(rt: &HostRuntime, kind: &str, first: &str, others: &str) {
    match format!(in rt.alloc(); "{first},{others}}}") {
        Ok(text) => print_text(rt, kind, text.as_bytes()),
        Err(_) => say(rt, "no memory"),
    }
}

/// Prints what a mark's or a meta's text has or is, or why it is none.
fn print_text(rt: &HostRuntime, kind: &str, text: &[u8]) {
    if kind == "mark" {
        print_mark(rt, text);
    } else {
        match Meta::read(rt.alloc(), text) {
            Ok(meta) => print_meta(rt, kind, text, copied(meta)),
            Err(refusal) => print_refusal(rt, refusal),
        }
    }
}

/// Prints what the copy of a meta has that was read of a file, and else whether it is written again as the text stood.
fn print_meta(rt: &HostRuntime, kind: &str, text: &[u8], copy: Option<Meta>) {
    match &copy {
        Some(meta) if kind == "file" => print_fields(rt, meta),
        Some(meta) => print_again(rt, text, meta.write(rt.alloc())),
        None => say(rt, "no memory"),
    }
    drop(copy);
}

fn print_mark(rt: &HostRuntime, text: &[u8]) {
    match DeletionMark::read(rt.alloc(), text) {
        Ok(mark) => match copied(mark) {
            Some(copy) => print_again(rt, text, copy.write(rt.alloc())),
            None => say(rt, "no memory"),
        },
        Err(refusal) => print_refusal(rt, refusal),
    }
}

/// Prints that a text was read, and whether it was written again as it stood there.
fn print_again(rt: &HostRuntime, text: &[u8], again: Result<Blob, NoMemory>) {
    match &again {
        Ok(again) if again.bytes() == text => say(rt, "read, and written again"),
        Ok(_) => say(rt, "read"),
        Err(_) => say(rt, "no memory"),
    }
    drop(again);
}

/// Prints the case of a refusal, and the field that it names.
fn print_refusal(rt: &HostRuntime, refusal: MetaRefusal) {
    let (case, field) = case_of(&refusal);
    put(rt, case);
    say(rt, field);
    drop(refusal);
}

fn case_of(refusal: &MetaRefusal) -> (&'static str, &str) {
    match refusal {
        MetaRefusal::NotJson => ("NotJson", ""),
        MetaRefusal::MissingField(name) => ("MissingField ", name.as_str()),
        MetaRefusal::WrongKind(name) => ("WrongKind ", name.as_str()),
        MetaRefusal::BadVersion => ("BadVersion", ""),
        MetaRefusal::BadTimes => ("BadTimes", ""),
        MetaRefusal::BadUlid(name) => ("BadUlid ", name.as_str()),
        MetaRefusal::BadLabels => ("BadLabels", ""),
        MetaRefusal::NoMemory => ("NoMemory", ""),
    }
}

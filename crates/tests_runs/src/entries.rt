//! The entries of a journal, as rows show them.
use crate::says::{put, put_number, say, say_names, text_of};
use block_keys::Key;
use label_sets::Text;
use ulid_core::Ulid;
use world_core::{Entry, Op, Reply};

/// Prints each entry on a line: its number, its moment, its seat, its operation and its reply.
pub(crate) fn print_entries(rt: &HostRuntime, entries: &[Entry]) {
    for entry in entries {
        put_number(rt, "  ", entry.seq);
        put_number(rt, " ", entry.moment.ms);
        put_number(rt, " ", u64::from(entry.seat));
        print_op(rt, &entry.op);
        put(rt, " ->");
        print_reply(rt, &entry.reply);
    }
}

/// Prints an operation; of a put the text of a mark, and how many bytes another object has.
fn print_op(rt: &HostRuntime, op: &Op) {
    match op {
        Op::Clock(moment) => put_number(rt, " clock ", moment.ms),
        Op::Put(key, bytes) => {
            put_key(rt, " put ", key);
            match key {
                Key::Mark(_) => {
                    put(rt, " ");
                    put(rt, text_of(bytes.bytes()));
                }
                _ => put_number(rt, " ", bytes.bytes().len() as u64),
            }
        }
        Op::Get(key) => put_key(rt, " get ", key),
        Op::GetRange(key, from, len) => {
            put_key(rt, " range ", key);
            put_number(rt, " ", *from);
            put_number(rt, " ", *len);
        }
        Op::RootPage(after, limit) => {
            put(rt, " page");
            put_name(rt, after);
            put_number(rt, " ", u64::from(*limit));
        }
        Op::Delete(key) => put_key(rt, " delete ", key),
        Op::BlockPage(ulid, after, limit) => {
            put_object(rt, " page of ", *ulid);
            put_name(rt, after);
            put_number(rt, " ", u64::from(*limit));
        }
    }
}

fn print_reply(rt: &HostRuntime, reply: &Reply) {
    match reply {
        Reply::Clocked => say(rt, " done"),
        Reply::Stored => say(rt, " stored"),
        Reply::Found(bytes) => {
            put_number(rt, " found ", bytes.bytes().len() as u64);
            say(rt, "");
        }
        Reply::Absent => say(rt, " absent"),
        Reply::Deleted => say(rt, " deleted"),
        Reply::Names(names) => {
            put(rt, " names");
            say_names(rt, names.members());
        }
        Reply::Failed(false) => say(rt, " failed"),
        Reply::Failed(true) => say(rt, " landed"),
    }
}

/// Prints a name behind a blank, if there is one.
fn put_name(rt: &HostRuntime, name: &Text) {
    let name = name.as_str();
    if !name.is_empty() {
        put(rt, " ");
        put(rt, name);
    }
}

fn put_key(rt: &HostRuntime, word: &str, key: &Key) {
    put(rt, word);
    match key {
        Key::Mark(ulid) => put_object(rt, "d", *ulid),
        Key::Meta(ulid) => put_object(rt, "m", *ulid),
        Key::Index(ulid) => put_object(rt, "i", *ulid),
        Key::Segment(ulid, number) => {
            put_number(rt, "", u64::from(*number));
            put_object(rt, "", *ulid);
        }
    }
}

/// Prints a word, and the last character of a ULID.
fn put_object(rt: &HostRuntime, word: &str, ulid: Ulid) {
    let letter = char::from(ulid.text()[25]);
    let _ = print!(rt; "{word}{letter}");
}

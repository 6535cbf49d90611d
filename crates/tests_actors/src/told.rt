//! What was done and told.
use crate::says::{put, say, say_text};
use base::{NoMemory, TryCopy};
use block_keys::Key;
use label_sets::Text;
use meta_fetcher::SyncEnd;
use std::fmt::Debug;
use std::str;
use sync_filters::FoundList;
use ulid_core::Ulid;
use world_core::{Driven, Entry, EntryList, Journal, Op, Reply, Seen};

/// Prints how an activity came out.
pub(crate) fn print_end<E: Debug + Drop>(rt: &HostRuntime, driven: Driven<E>) {
    match &driven {
        Driven::Ended(end) => {
            let _ = print!(rt; "  {end:?}:");
        }
        Driven::Stopped(count) => {
            let _ = print!(rt; "  Stopped({count}):");
        }
        Driven::Full => put(rt, "  full:"),
        Driven::NoMemory => put(rt, "  no end:"),
    }
    drop(driven);
}

/// Prints how a sync came out.
pub(crate) fn print_sync(rt: &HostRuntime, driven: Driven<SyncEnd>) {
    match &driven {
        Driven::Ended(SyncEnd::View(view)) => {
            print_blocks(rt, "  a view of", &view.kept);
            print_blocks(rt, ", covered", &view.covered);
            put(rt, ":");
        }
        Driven::Ended(SyncEnd::Fault(entry)) => {
            let _ = print!(rt; "  a fault at entry {entry}:");
        }
        Driven::Ended(SyncEnd::Damaged(entry)) => {
            let _ = print!(rt; "  damage at entry {entry}:");
        }
        Driven::Ended(SyncEnd::TooMany) => put(rt, "  too many:"),
        _ => put(rt, "  no end:"),
    }
    drop(driven);
}

/// Prints a word, and of each block the last character of its ULID.
pub(crate) fn print_blocks(rt: &HostRuntime, word: &str, blocks: &FoundList) {
    put(rt, word);
    for block in blocks.members() {
        put_block(rt, " ", block.ulid);
    }
}

/// Prints the operations behind so many, each behind the number of its entry. The head of standard input says what the words mean.
pub(crate) fn print_ops(rt: &HostRuntime, entries: &[Entry], before: usize) {
    for entry in &entries[before.min(entries.len())..] {
        let _ = print!(rt; " {}:", entry.seq);
        print_op(rt, &entry.op);
    }
    say(rt, "");
}

fn print_op(rt: &HostRuntime, op: &Op) {
    match op {
        Op::Clock(moment) => {
            let _ = print!(rt; "@{}", moment.ms);
        }
        Op::RootPage(after, _) => {
            put(rt, "P");
            if let Some(letter) = after.as_str().chars().last() {
                let _ = print!(rt; "{letter}");
            }
        }
        Op::BlockPage(ulid, after, _) => {
            put_block(rt, "p", *ulid);
            put(rt, after.as_str());
        }
        Op::Get(key) => put_key(rt, "", key),
        Op::GetRange(key, from, len) => {
            put_key(rt, "", key);
            let _ = print!(rt; "({from},{len})");
        }
        Op::Put(key, _) => put_key(rt, "+", key),
        Op::Delete(key) => put_key(rt, "-", key),
    }
}

fn put_key(rt: &HostRuntime, sign: &str, key: &Key) {
    put(rt, sign);
    match key {
        Key::Mark(ulid) => put_block(rt, "d", *ulid),
        Key::Meta(ulid) => put_block(rt, "m", *ulid),
        Key::Index(ulid) => put_block(rt, "i", *ulid),
        Key::Segment(ulid, number) => {
            let _ = print!(rt; "{number}");
            put_block(rt, "", *ulid);
        }
    }
}

/// Prints a word, and the last character of a ULID, or `*` for one of 1970 that has a moment.
fn put_block(rt: &HostRuntime, word: &str, ulid: Ulid) {
    let is_new = ulid.time() > 0 && ulid.time() < 1_000_000_000_000;
    let letter = if is_new {
        '*'
    } else {
        char::from(ulid.text()[25])
    };
    let _ = print!(rt; "{word}{letter}");
}

/// Prints the text of each mark and each meta that was put, behind the number of its entry.
pub(crate) fn print_texts(rt: &HostRuntime, entries: &[Entry]) {
    for entry in entries {
        if let Op::Put(Key::Mark(_) | Key::Meta(_), bytes) = &entry.op {
            let _ = print!(rt; "  {} ", entry.seq);
            say_text(rt, bytes.bytes());
        }
    }
}

/// Prints what an operation was told.
pub(crate) fn print_seen(rt: &HostRuntime, seen: Seen) {
    let _ = print!(rt; " -> {} at {}: ", seen.seq, seen.moment.ms);
    match &seen.reply {
        Reply::Found(bytes) => {
            let _ = println!(rt;
                "found {:?}",
                str::from_utf8(bytes.bytes()).unwrap_or("no text")
            );
        }
        Reply::Names(names) => print_names(rt, names.members()),
        Reply::Clocked => say(rt, "clocked"),
        Reply::Stored => say(rt, "stored"),
        Reply::Absent => say(rt, "absent"),
        Reply::Deleted => say(rt, "deleted"),
        Reply::Failed(false) => say(rt, "failed"),
        Reply::Failed(true) => say(rt, "failed and landed"),
    }
    drop(seen);
}

fn print_names(rt: &HostRuntime, names: &[Text]) {
    put(rt, "names");
    for name in names {
        put(rt, " ");
        put(rt, name.as_str());
    }
    say(rt, "");
}

/// Prints what a journal tells of itself.
pub(crate) fn print_journal(rt: &HostRuntime, journal: &Journal) {
    let _ = print!(rt; "  {} entries, empty {}", journal.len(), journal.is_empty());
    for number in [0u64, 7, 8] {
        let _ = print!(rt;
            ", entry {number}: {:?}",
            journal.get(number).map(|entry| entry.seq)
        );
    }
    say(rt, "");
}

/// Prints how many entries the copy of a list of copies of a journal's entries has.
pub(crate) fn print_copies(rt: &HostRuntime, journal: &Journal) {
    let mut copies = EntryList::new(rt.alloc());
    for entry in journal.entries() {
        if let Ok(copy) = entry.copy() {
            let _ = copies.push(copy);
        }
    }
    let twice = copies.copy();
    drop(copies);
    let count = match twice {
        Ok(twice) => twice.len(),
        Err(NoMemory) => 0,
    };
    let _ = println!(rt; "  {count} copies");
}

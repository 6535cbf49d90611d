//! Rows of calls on a bucket and a shelf in one real folder, and on a bucket in memory that has to answer alike; and of
//! changes to the folder that no bucket makes: other folders, files of any length, and files that may not be read.

ghost use Rattle.std.specs.Prelude.{IsTrue};
ghost use Rattle.bucket_core.specs.Contents.{IsKey};

use crate::folders::memory_shelf::{CHECK, SHELVED, UPLOADED, print_over_memory};
use crate::folders::occupied::print_over_object;
use crate::folders::runs::{print_beside, print_over_files};
use crate::lines::{ONE_BLOCK, script_of};
use crate::says::{cut, put, say, say_names, show, text_of};
use bucket_core::{Bucket, GetAnswer, PageAnswer, Shelf, ShelfAnswer};
use std::fs::{File, Permissions};
use std::os::unix::fs::PermissionsExt;
use std::sync::Wait;
use std::thread::Threads;
use std::{fs, io};
use wire_bytes::Blob;

/// A bucket and a shelf over one folder, and a bucket in memory.
#[derive(Drop)]
pub(crate) struct Folder<B: Bucket, F: Shelf> {
    pub(crate) bucket: B,
    pub(crate) shelf: F,
    pub(crate) memory: B,
}

/// Prints a call and its answer, or does something to the folder itself. `.` stands for an empty text.
pub(crate) fn print_call<R: Threads + Wait + Sync, B: Bucket, F: Shelf>(
    threads: &R,
    rt: &HostRuntime,
    folder: &mut Folder<B, F>,
    row: &str,
) {
    let (kind, text) = cut(row);
    put(rt, row);
    put(rt, " -> ");
    match kind {
        "run" => {
            let script = script_of(rt.alloc(), &[], ONE_BLOCK);
            print_over_files(threads, rt, cut(text), script, None);
        }
        "example" => {
            let (name, shelf) = text.split_once(' ').unwrap_or((text, "none"));
            print_beside(threads, rt, ("serial memory", shelf), "examples", name);
        }
        "runs" | "replays" => {
            let (places, name) = text.rsplit_once(' ').unwrap_or(("", text));
            let call = if kind == "runs" { "serial" } else { "replay" };
            print_beside(threads, rt, (call, places), "runs", name);
        }
        "words" => print_over_memory(threads, rt, &CHECK, text),
        "served" => print_over_memory(threads, rt, &SHELVED, text),
        "shipped" => print_over_memory(threads, rt, &UPLOADED, text),
        "occupied" => print_over_object(threads, rt, text),
        "folder" | "file" | "mode" => show(rt, &change(rt, kind, text).is_ok()),
        "read" => print_read(rt, folder.shelf.read(text)),
        "memory" => {
            let (kind, text) = cut(text);
            print_answer(rt, &mut folder.memory, kind, text);
        }
        _ => print_answer(rt, &mut folder.bucket, kind, text),
    }
}

/// Prints what a bucket answers.
fn print_answer<B: Bucket>(rt: &HostRuntime, bucket: &mut B, kind: &str, text: &str) {
    let (first, rest) = cut(text);
    match kind {
        "put" => print_put(rt, bucket, first, rest),
        "get" => print_get(rt, bucket.get(text)),
        "range" => {
            let (from, len) = cut(rest);
            print_get(rt, bucket.get_range(first, number_of(from), number_of(len)));
        }
        "delete" => show(rt, &bucket.delete(text)),
        "page" => print_page(rt, bucket, first, rest),
        _ => say(rt, "no call"),
    }
}

pub(crate) fn is_key(key: &str) -> bool
    ensures { IsTrue result → IsKey key.now }
{
    match key.as_bytes() {
        [] => false,
        [first, ..] => *first != b'/',
    }
}

fn print_put<B: Bucket>(rt: &HostRuntime, bucket: &mut B, key: &str, bytes: &str) {
    if !is_key(key) {
        return say(rt, "no key");
    }
    match Blob::from_bytes(rt.alloc(), bytes.as_bytes()) {
        Ok(bytes) => show(rt, &bucket.put(key, &bytes)),
        Err(_) => say(rt, "no memory"),
    }
}

fn number_of(text: &str) -> u64 {
    text.parse().unwrap_or(0)
}

fn print_page<B: Bucket>(rt: &HostRuntime, bucket: &mut B, within: &str, rest: &str) {
    let (after, limit) = cut(rest);
    let limit = limit.parse::<u32>().unwrap_or(1).max(1);
    match bucket.page(unless_dot(within), unless_dot(after), limit) {
        PageAnswer::Names(names) => {
            put(rt, "names");
            say_names(rt, names.members());
        }
        PageAnswer::Failed => say(rt, "failed"),
        PageAnswer::NoMemory => say(rt, "no memory"),
    }
}

fn unless_dot(text: &str) -> &str {
    if text == "." { "" } else { text }
}

fn print_get(rt: &HostRuntime, answer: GetAnswer) {
    match answer {
        GetAnswer::Found(bytes) => print_found(rt, bytes.bytes()),
        GetAnswer::Absent => say(rt, "absent"),
        GetAnswer::Failed => say(rt, "failed"),
        GetAnswer::NoMemory => say(rt, "no memory"),
    }
}

fn print_read(rt: &HostRuntime, answer: ShelfAnswer) {
    match answer {
        ShelfAnswer::Found(bytes) => print_found(rt, bytes.bytes()),
        ShelfAnswer::Absent => say(rt, "absent"),
        ShelfAnswer::TooLarge => say(rt, "too large"),
        ShelfAnswer::Failed => say(rt, "failed"),
        ShelfAnswer::NoMemory => say(rt, "no memory"),
    }
}

/// Prints what was found: a short text, or how many bytes there are.
fn print_found(rt: &HostRuntime, bytes: &[u8]) {
    put(rt, "found ");
    if bytes.len() > 99 {
        let _ = println!(rt; "{} bytes", bytes.len());
    } else {
        show(rt, &text_of(bytes));
    }
}

/// Makes a folder, or a file of so many bytes, which are all zero; or sets who may read one, by an octal number.
fn change(rt: &HostRuntime, kind: &str, text: &str) -> io::Result<()> {
    let (path, number) = cut(text);
    match kind {
        "folder" => fs::create_dir_all(rt, path),
        "file" => File::create(rt, path)?.set_len(number_of(number)),
        _ => {
            let mode = u32::from_str_radix(number, 8).unwrap_or(0);
            fs::set_permissions(rt, path, Permissions::from_mode(mode))
        }
    }
}

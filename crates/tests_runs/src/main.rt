//! Calls on buckets and shelves in real folders, whole runs over them and over a bucket in memory of which calls may fail and
//! which may lie, and passes and workers that act on one world from threads of their own. What is to be printed was worked out
//! apart from this program, by the description of the formats and of the activities.

#![tactic(auto)]

mod entries;
mod folders;
mod lines;
mod messages;
mod runs;
mod says;
mod setting;
mod strange_bucket;
mod threads;
mod told_runs;
mod tool;

use crate::folders::{Folder, open_both, print_call, print_openings};
use crate::lines::{Named, add_lines, repeated, script_of, wide};
use crate::messages::print_messages;
use crate::runs::{Shown, print_run};
use crate::says::{cut, say};
use crate::setting::{CALM, setting_of};
use crate::threads::print_threads;
use bucket_core::{Bucket, Shelf, Site};
use dir_bucket::HostSite;
use std::io;
use std::sync::Wait;
use std::thread::Threads;

/// A line of standard input is a call on a folder behind the word `folders`, a run, in the notation that is explained above the first of
/// them, or a case of threads. One that begins with `= ` is a heading.
fn main(rt: HostRuntime) -> io::Result<()> {
    let mut site = HostSite::new(rt.clone()?);
    let printed = print_all(&rt, &rt, &mut site);
    drop(site);
    printed
}

/// Prints which buckets and shelves a site opens, and then what comes of each row.
fn print_all<R: Threads + Wait + Sync, S: Site>(
    threads: &R,
    rt: &HostRuntime,
    site: &mut S,
) -> io::Result<()>
where
    S::Store: Drop,
    S::Files: Drop,
{
    print_openings(rt, site);
    match open_both(site) {
        Some(opened) => {
            let mut folder = opened;
            let printed = print_rows(threads, rt, &mut folder);
            drop(folder);
            printed
        }
        None => {
            say(rt, "not opened");
            Ok(())
        }
    }
}

fn print_rows<R: Threads + Wait + Sync, B: Bucket, F: Shelf>(
    threads: &R,
    rt: &HostRuntime,
    folder: &mut Folder<B, F>,
) -> io::Result<()> {
    let mut named = Vec::new(rt.alloc());
    for row in rt.lines(rt.alloc()) {
        do_row(threads, rt, folder, &mut named, row?.as_str());
    }
    Ok(())
}

/// Does what a row says. Rows that name lines print nothing.
fn do_row<R: Threads + Wait + Sync, B: Bucket, F: Shelf>(
    threads: &R,
    rt: &HostRuntime,
    folder: &mut Folder<B, F>,
    named: &mut Vec<Named>,
    row: &str,
) {
    let (word, text) = cut(row);
    match word {
        "=" => say(rt, row),
        "folders" => print_call(threads, rt, folder, text),
        "lines" => add_lines(named, text),
        "words" | "repeat" | "wide" | "run" | "journal" | "calls" | "told" => {
            say(rt, row);
            print_one(rt, named.as_slice(), word, text);
        }
        _ => print_threads(threads, rt, row, word, text),
    }
}

/// The words of a run by one thread, over memory and no shelf.
const SERIAL: &str = "serial memory none";

/// Does one run, and prints what came of it.
fn print_one(rt: &HostRuntime, named: &[Named], word: &str, text: &str) {
    let alloc = rt.alloc();
    match word {
        "words" => print_run(rt, text, Vec::new(alloc), &CALM, Shown::Report),
        "repeat" => print_run(rt, SERIAL, repeated(alloc, text), &CALM, Shown::Report),
        "wide" => {
            let script = wide(alloc, text.parse().unwrap_or(0));
            print_run(rt, SERIAL, script, &CALM, Shown::Entries);
        }
        "told" => {
            let (how, lines) = text.split_once(" / ").unwrap_or((text, ""));
            print_messages(rt, named, how, lines);
        }
        _ => {
            let (how, lines) = text.split_once(" / ").unwrap_or((text, ""));
            let shown = match word {
                "journal" => Shown::Entries,
                "calls" => Shown::Calls,
                _ => Shown::Report,
            };
            let script = script_of(alloc, named, lines);
            print_run(rt, SERIAL, script, &setting_of(how), shown);
        }
    }
}

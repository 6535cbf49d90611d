//! Calls of the tool over a shelf in memory that holds the block of a folder, or nothing.
use crate::entries::print_entries;
use crate::folders::runs::{file_of, print_ended};
use crate::setting::{CALM, Setting};
use crate::tool::end_over_memory;
use bucket_core::{Fail, File, FileList};
use label_sets::Text;
use phase_runner::Open;
use std::sync::Wait;
use std::thread::Threads;
use wire_bytes::Blob;

/// The block that is checked, and taken from the shelf.
const BLOCK: &str = "0000000000000000000000000A";

/// Its files.
const NAMES: [&str; 3] = ["chunks/000001", "index", "meta.json"];

/// A call of the tool over such a shelf: its name, the words behind it, the lines of its script, and whether its journal is shown.
pub(crate) struct Call {
    name: &'static str,
    words: &'static str,
    lines: &'static str,
    shows_entries: bool,
}

/// The check of the block.
pub(crate) const CHECK: Call = Call {
    name: "check",
    words: "s 0000000000000000000000000A",
    lines: "",
    shows_entries: false,
};

/// A run that takes the block from the shelf: it is uploaded, and found by a query after it.
pub(crate) const SHELVED: Call = Call {
    name: "serial",
    words: "memory s",
    lines: "gateway g
shelf 0000000000000000000000000A {}
at 0
upload 0000000000000000000000000A
at 1800000
sync g
query 0 5000 {}",
    shows_entries: false,
};

/// A run that uploads the block alone, of which each entry is shown.
pub(crate) const UPLOADED: Call = Call {
    name: "serial",
    words: "memory s",
    lines: "shelf 0000000000000000000000000A {}
at 0
upload 0000000000000000000000000A",
    shows_entries: true,
};

/// Prints the status and the text of a call over an empty bucket and a shelf in memory that holds the block of the folder which the
/// row names, if it is there; `fails` before it says that the first reading of the shelf fails.
pub(crate) fn print_over_memory<R: Threads + Wait + Sync>(
    threads: &R,
    rt: &HostRuntime,
    call: &Call,
    row: &str,
) {
    let mut setting = CALM;
    let folder = match row.strip_prefix("fails ") {
        Some(folder) => {
            setting.shelf = Some(Fail {
                call: 1,
                landed: false,
            });
            folder
        }
        None => row,
    };
    let files = files_of(rt, folder);
    let words = (call.name, call.words);
    let ended = end_over_memory(
        threads,
        rt.alloc(),
        words,
        files,
        call.lines,
        &setting,
        &Open,
    );
    print_ended(rt, &ended, None);
    if let (true, Some(journal)) = (call.shows_entries, &ended.journal) {
        print_entries(rt, journal.entries());
    }
    drop(ended);
}

/// The files of the block in a folder, or none.
fn files_of(rt: &HostRuntime, folder: &str) -> FileList {
    let mut files = FileList::new(rt.alloc());
    for name in NAMES {
        add_file(rt, &mut files, folder, name);
    }
    files
}

/// Adds the file of that name, if it is there and not empty.
fn add_file(rt: &HostRuntime, files: &mut FileList, folder: &str, name: &str) {
    let Ok(name) = format!(in rt.alloc(); "{BLOCK}/{name}") else {
        return;
    };
    let bytes = file_of(rt, folder, name.as_str(), "");
    if !bytes.is_empty() {
        let _ = files.push(File {
            name: Text::from_string(name),
            bytes: Blob::from_vec(bytes),
        });
    }
}

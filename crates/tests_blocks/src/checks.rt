//! Blocks of folders, checked.
use crate::noting_shelf::NotingShelf;
use crate::says::{cut, say};
use crate::verdicts::print_end;
use block_content::{CheckRefusal, Checked, check};
use block_loading::{LoadRefusal, check_on_shelf, load};
use block_meta::BlockFiles;
use dir_bucket::DirShelf;
use label_sets::Text;
use std::alloc::Global;
use ulid_core::Ulid;

/// The shelf of a folder, of which one reading fails if a number above 0 tells one.
pub(crate) fn open(rt: &HostRuntime, fails: usize, folder: &str) -> Option<NotingShelf> {
    let Ok(host) = rt.clone() else {
        return None;
    };
    match DirShelf::open(host, folder) {
        Ok(folder) => Some(NotingShelf::new(rt.alloc(), folder, fails)),
        Err(_) => None,
    }
}

/// Checks the block that a row names, in one call or in two.
pub(crate) fn verdict_on(
    rt: &HostRuntime,
    text: &str,
    in_two: bool,
) -> Result<Checked, LoadRefusal> {
    let (folder, name) = cut(text);
    let Ok(ulid) = Ulid::read(name) else {
        return Err(LoadRefusal::ShelfFault);
    };
    match open(rt, 0, folder) {
        Some(mut shelf) => {
            let verdict = verdict_of(rt.alloc(), &mut shelf, ulid, in_two);
            drop(shelf);
            verdict
        }
        None => Err(LoadRefusal::ShelfFault),
    }
}

fn verdict_of(
    alloc: Global,
    shelf: &mut NotingShelf,
    ulid: Ulid,
    in_two: bool,
) -> Result<Checked, LoadRefusal> {
    if !in_two {
        return check_on_shelf(alloc, shelf, ulid);
    }
    match load(alloc, shelf, ulid) {
        Ok(files) => match check(alloc, ulid, files) {
            Ok(checked) => Ok(checked),
            Err(CheckRefusal::NoMemory) => Err(LoadRefusal::NoMemory),
            Err(refusal) => Err(LoadRefusal::Refused(refusal)),
        },
        Err(refusal) => Err(refusal),
    }
}

/// Checks a block, or loads it alone, and prints how that ends and which files the shelf was asked for: FAILS FOLDER ULID, where the
/// reading of that number fails.
pub(crate) fn print_asked(rt: &HostRuntime, loads: bool, text: &str) {
    let (fails, rest) = cut(text);
    let (folder, name) = cut(rest);
    let Ok(ulid) = Ulid::read(name) else {
        return say(rt, "no name");
    };
    match open(rt, fails.parse().unwrap_or(0), folder) {
        Some(mut shelf) => {
            if loads {
                print_loaded(rt, load(rt.alloc(), &mut shelf, ulid));
            } else {
                print_end(rt, check_on_shelf(rt.alloc(), &mut shelf, ulid));
            }
            print_names(rt, shelf.names());
            drop(shelf);
        }
        None => say(rt, "no shelf"),
    }
}

fn print_loaded(rt: &HostRuntime, loaded: Result<BlockFiles, LoadRefusal>) {
    match loaded {
        Ok(files) => {
            drop(files);
            say(rt, "ok");
        }
        Err(refusal) => print_end(rt, Err(refusal)),
    }
}

fn print_names(rt: &HostRuntime, names: &[Text]) {
    for name in names {
        say(rt, name.as_str());
    }
}

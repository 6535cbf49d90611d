//! What is printed of checked blocks.
use crate::checks::verdict_on;
use crate::says::{put, say, say_text, show};
use block_content::{CheckRefusal, Checked, content};
use block_keys::Key;
use block_loading::LoadRefusal;
use block_meta::BlockFiles;
use label_sets::Series;

/// Prints whether the block that a row names may be shipped.
pub(crate) fn print_verdict(rt: &HostRuntime, in_two: bool, text: &str) {
    print_end(rt, verdict_on(rt, text, in_two));
}

pub(crate) fn print_end(rt: &HostRuntime, verdict: Result<Checked, LoadRefusal>) {
    match verdict {
        Ok(checked) => {
            print_counts(rt, &checked);
            drop(checked);
        }
        Err(LoadRefusal::Refused(refusal)) => print_refusal(rt, &refusal),
        Err(LoadRefusal::ShelfFault) => say(rt, "shelf fault"),
        Err(LoadRefusal::NoMemory) => say(rt, "no memory"),
    }
}

pub(crate) fn print_counts(rt: &HostRuntime, checked: &Checked) {
    let _ = println!(rt;
        "ok {} series {} samples",
        checked.series(),
        checked.samples()
    );
}

fn print_refusal(rt: &HostRuntime, refusal: &CheckRefusal) {
    put(rt, "refused ");
    match refusal {
        CheckRefusal::NoFile(key) => {
            put(rt, "NoFile ");
            print_name(rt, *key);
            say(rt, "");
        }
        CheckRefusal::BadMeta(cause) => {
            put(rt, "BadMeta ");
            show(rt, cause);
        }
        CheckRefusal::BadIndex(cause) => {
            put(rt, "BadIndex ");
            show(rt, cause);
        }
        CheckRefusal::BadChunk {
            series,
            chunk,
            cause,
        } => {
            let _ = println!(rt; "BadChunk {series} {chunk} {cause:?}");
        }
        CheckRefusal::OutsideRange { series, time } => {
            let _ = println!(rt; "OutsideRange {series} {time}");
        }
        refusal => show(rt, refusal),
    }
}

/// Prints the name of a file within its block.
pub(crate) fn print_name(rt: &HostRuntime, key: Key) {
    match key {
        Key::Meta(_) => put(rt, "meta.json"),
        Key::Index(_) => put(rt, "index"),
        Key::Segment(_, number) => {
            let _ = print!(rt; "chunks/{number:06}");
        }
        Key::Mark(_) => put(rt, "deletion-mark.json"),
    }
}

/// Prints the series that a block holds.
pub(crate) fn print_content(rt: &HostRuntime, text: &str) {
    match verdict_on(rt, text, false) {
        Ok(checked) => {
            print_held(rt, checked.files());
            drop(checked);
        }
        Err(_) => say(rt, "not read"),
    }
}

fn print_held(rt: &HostRuntime, files: &BlockFiles) {
    match content(rt.alloc(), files) {
        Ok(list) => {
            print_list(rt, list.members());
            drop(list);
        }
        Err(_) => say(rt, "not read"),
    }
}

fn print_list(rt: &HostRuntime, list: &[Series]) {
    for series in list {
        let mut line = Vec::new(rt.alloc());
        let _ = series.write(&mut line);
        say_text(rt, line.as_slice());
    }
}

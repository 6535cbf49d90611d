use crate::entries::print_entries;
use crate::says::{put_number, say, say_lines, text_of};
use crate::setting::Setting;
use crate::strange_bucket::{StrangeBucket, StrangeSite};
use crate::told_runs::run_told;
use crate::tool::{add_words, written_to};
use bucket_core::{MemoryShelf, MemorySink, MemorySource};
use replay_cli::Run;
use wire_bytes::Blob;

/// What is printed of a run: its status and its report; and behind these its journal, or the calls that its bucket noted.
#[derive(Clone, Copy)]
pub(crate) enum Shown {
    Report,
    Entries,
    Calls,
}

/// Prints a run of the program with these words.
pub(crate) fn print_run(
    rt: &HostRuntime,
    words: &str,
    script: Vec<u8>,
    setting: &Setting,
    shown: Shown,
) {
    let alloc = rt.alloc();
    let mut list = Vec::new(alloc);
    add_words(&mut list, words);
    let mut site = StrangeSite::new(alloc, setting);
    let mut source = MemorySource::new(Blob::from_vec(script), setting.source);
    let mut sink = MemorySink::new(alloc, setting.sink);
    let run = run_told(alloc, &list, &mut site, &mut source, &mut sink);
    drop(list);
    drop(source);
    drop(site);
    print_written(rt, run.status, written_to(&sink));
    drop(sink);
    print_shown(rt, &run, shown);
    drop(run);
}

/// Prints a status, and each line of what was written.
pub(crate) fn print_written(rt: &HostRuntime, status: u8, text: &[u8]) {
    put_number(rt, "  status ", u64::from(status));
    say(rt, "");
    say_lines(rt, text_of(text));
}

fn print_shown(rt: &HostRuntime, run: &Run<StrangeBucket, MemoryShelf>, shown: Shown) {
    match (shown, &run.journal, &run.store) {
        (Shown::Entries, Some(journal), _) => print_entries(rt, journal.entries()),
        (Shown::Calls, _, Some(store)) => say_lines(rt, text_of(&store.notes)),
        _ => {}
    }
}

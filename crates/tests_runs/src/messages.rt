//! What standard error is told of the failures of a run over memory.
use crate::lines::{Named, script_of};
use crate::says::{say, say_lines, text_of};
use crate::setting::setting_of;
use crate::strange_bucket::StrangeSite;
use crate::told_runs::run_told;
use crate::tool::{add_words, written_to};
use base::NoMemory;
use bucket_core::{MemorySink, MemorySource};
use run_messages::{messages, told_in};
use std::alloc::Global;
use wire_bytes::Blob;
use world_core::Journal;

/// Prints the messages on the failures of a run by one thread, over memory and no shelf.
pub(crate) fn print_messages(rt: &HostRuntime, named: &[Named], how: &str, lines: &str) {
    let alloc = rt.alloc();
    let setting = setting_of(how);
    let script = script_of(alloc, named, lines);
    let mut words = Vec::new(alloc);
    add_words(&mut words, "serial memory none");
    let mut site = StrangeSite::new(alloc, &setting);
    let text = Blob::from_vec(script_of(alloc, named, lines));
    let mut source = MemorySource::new(text, setting.source);
    let mut sink = MemorySink::new(alloc, setting.sink);
    let run = run_told(alloc, &words, &mut site, &mut source, &mut sink);
    match messages_of(alloc, written_to(&sink), &script, run.journal.as_ref()) {
        Ok(text) => say_lines(rt, text_of(&text)),
        Err(NoMemory) => say(rt, "no memory"),
    }
    drop(run);
    drop(sink);
    drop(source);
    drop(site);
    drop(words);
    drop(script);
}

/// The messages on the failures that a report tells of.
fn messages_of(
    alloc: Global,
    report: &[u8],
    script: &[u8],
    journal: Option<&Journal>,
) -> Result<Vec<u8>, NoMemory> {
    let told = told_in(alloc, report)?;
    let text = match journal {
        Some(journal) => messages(alloc, &told, script, journal.entries()),
        None => messages(alloc, &told, script, Default::default()),
    };
    drop(told);
    text
}

//! Calls of the tool over a script and a sink in memory, of which the status and what was written are kept alone.
use crate::lines::script_of;
use crate::setting::{Setting, fails_of};
use bucket_core::{
    FileList, MemoryBucket, MemoryShelf, MemorySink, MemorySite, MemorySource, Site,
};
use phase_runner::Gate;
use replay_cli::{Crew, Run, run_replay, run_tool};
use std::alloc::Global;
use std::sync::Wait;
use std::thread::Threads;
use wire_bytes::Blob;
use world_core::Journal;

/// How a call ended, its journal if it had a bucket, and what it wrote.
#[derive(Drop)]
pub(crate) struct Ended {
    pub(crate) status: u8,
    pub(crate) journal: Option<Journal>,
    pub(crate) out: MemorySink,
}

impl Ended {
    /// What was written.
    pub(crate) fn written(&self) -> &[u8] {
        written_to(&self.out)
    }
}

/// Does the call of this name with the words behind it, over a bucket in memory and a shelf of these files. The script has these lines.
/// What the setting says goes wrong, but this bucket does not lie.
pub(crate) fn end_over_memory<R: Threads + Wait + Sync, G: Gate + Sync>(
    threads: &R,
    alloc: Global,
    (call, words): (&str, &str),
    files: FileList,
    lines: &str,
    setting: &Setting,
    gate: &G,
) -> Ended {
    let bucket = MemoryBucket::new(alloc, fails_of(alloc, setting.bucket));
    let shelf = MemoryShelf::with_failing(alloc, files, fails_of(alloc, setting.shelf));
    let mut site = MemorySite::new(bucket, shelf, setting.site);
    let script = script_of(alloc, &[], lines);
    let ended = end_of(threads, (call, words), &mut site, script, setting, gate);
    drop(site);
    ended
}

/// What was written to a sink, or that there was no memory to keep it.
pub(crate) fn written_to(out: &MemorySink) -> &[u8] {
    out.bytes().unwrap_or(b"no memory".as_slice())
}

/// Does the call of this name with the words behind it. Of the setting it takes which call of the source and of the sink fails.
pub(crate) fn end_of<R: Threads + Wait + Sync, S: Site, G: Gate + Sync>(
    threads: &R,
    (call, words): (&str, &str),
    site: &mut S,
    script: Vec<u8>,
    setting: &Setting,
    gate: &G,
) -> Ended
where
    S::Store: Drop + Send,
    S::Files: Drop,
{
    let alloc = *script.allocator();
    let mut source = MemorySource::new(Blob::from_vec(script), setting.source);
    let mut out = MemorySink::new(alloc, setting.sink);
    let mut list = Vec::new(alloc);
    add_words(&mut list, call);
    add_words(&mut list, words);
    let (status, journal) = run_of(threads, alloc, &list, site, &mut source, &mut out, gate);
    drop(list);
    drop(source);
    Ended {
        status,
        journal,
        out,
    }
}

/// The status and the journal of a call, which is done with threads where its first word is `replay`.
fn run_of<R: Threads + Wait + Sync, S: Site, G: Gate + Sync>(
    threads: &R,
    alloc: Global,
    words: &[String],
    site: &mut S,
    source: &mut MemorySource,
    out: &mut MemorySink,
    gate: &G,
) -> (u8, Option<Journal>)
where
    S::Store: Drop + Send,
    S::Files: Drop,
{
    let run = match words {
        [call, ..] if call.as_str() == "replay" => {
            let crew = Crew { threads, gate };
            run_replay(&crew, alloc, words, site, source, out)
        }
        _ => run_tool(alloc, words, site, source, out, gate),
    };
    let Run {
        status,
        journal,
        ..
    } = run;
    (status, journal)
}

/// Adds the words of a text. A word for which there is no memory is lacking, by which the row fails.
pub(crate) fn add_words(words: &mut Vec<String>, text: &str) {
    let alloc = *words.allocator();
    for word in text.split_whitespace() {
        if let Ok(word) = String::from_str(alloc, word) {
            let _ = words.push(word);
        }
    }
}

//! The program: it makes the real things, and the tool does the rest.
#![tactic(auto)]

ghost use Rattle.std.specs.Prelude.{◌≡◌, true, false};
ghost use Rattle.replay_cli.specs.call_verdicts.specs.Outside.{outside, site_call};
ghost use Rattle.replay_cli.specs.call_verdicts.specs.Verdicts.{saying_to};
ghost use Rattle.replay_cli.specs.call_verdicts.specs.Words.{number_word, replay_names, serial_names};
ghost use Rattle.replay_cli.specs.Promises.{Serves, ServesTool, call_of};
ghost use Rattle.replay_cli.specs.Ways.{beside};
ghost use Rattle.tosraem.specs.Calls.{names_replay};

mod advice;
mod kept_source;
mod progress;
mod report_sink;
mod room;
mod troubles;

use crate::advice::tell;
use crate::kept_source::KeptSource;
use crate::progress::Progress;
use crate::report_sink::ReportSink;
use crate::room::WithRoom;
use crate::troubles::Troubles;
use base::NoMemory;
use bucket_core::{Sink, Site, Source};
use dir_bucket::HostSite;
use phase_runner::Gate;
use replay_cli::{Crew, ReaderSource, Run, Status, run_replay, run_tool};
use run_messages::{ToldList, messages};
use std::alloc::Global;
use std::process::ExitCode;
use std::sync::Wait;
use std::thread::Threads;
use std::{env, io};
use world_core::Journal;

fn main(rt: HostRuntime) -> ExitCode {
    let alloc = rt.alloc();
    let host: Result<_, _> = rt.clone();
    let number = match (words_of(alloc, &rt), host) {
        (Ok(words), Ok(host)) => serve(&rt, &rt, &words, HostSite::new(host)),
        _ => {
            let number = Status::NoMemory.number();
            // A failure to say it changes nothing.
            let _ = tell(number, Troubles::none(), b"".as_slice(), &mut rt.stderr());
            number
        }
    };
    ExitCode::from(number)
}

/// Does what the words ask for, says on standard error what is to be said of it, and tells its status.
fn serve<T: Threads + Wait + Sync>(
    threads: &T,
    rt: &HostRuntime,
    words: &[String],
    site: HostSite<HostRuntime>,
) -> u8 {
    let alloc = rt.alloc();
    let mut site = site;
    let mut script = KeptSource::new(alloc, ReaderSource::new(rt.reader()));
    let mut out = ReportSink::new(alloc, io::writer(rt));
    let crew = Crew {
        threads,
        gate: &Progress::new(rt),
    };
    let ended = run(&crew, alloc, words, &mut site, &mut script, &mut out);
    let troubles = Troubles {
        bucket: site
            .bucket_trouble()
            .or(ended.store.as_ref().and_then(|bucket| bucket.trouble())),
        shelf: site
            .shelf_trouble()
            .or(ended.shelf.as_ref().and_then(|shelf| shelf.trouble())),
        report: out.trouble(),
    };
    let messages = messages_of(alloc, out.told(), script.text(), ended.journal.as_ref());
    // A failure to say it changes nothing.
    let _ = tell(ended.status, troubles, &messages, &mut rt.stderr());
    ended.status
}

/// The messages on the failures that a report tells of, or nothing where there is no memory for them. The lines of the script are told
/// where its text was kept.
fn messages_of(
    alloc: Global,
    told: Option<&ToldList>,
    script: Option<&[u8]>,
    journal: Option<&Journal>,
) -> Vec<u8> {
    let Some(told) = told else {
        return Vec::new(alloc);
    };
    if told.is_empty() {
        return Vec::new(alloc);
    }
    let script = script.unwrap_or_default();
    let made = match journal {
        Some(journal) => messages(alloc, told, script, journal.entries()),
        None => messages(alloc, told, script, Default::default()),
    };
    match made {
        Ok(messages) => messages,
        Err(NoMemory) => Vec::new(alloc),
    }
}

/// Does what the words ask for: with threads where they name a replay, and else one task after another. It hands back the run that
/// the call made, and promises all that this call promises. The gate of the crew is told how far the run is.
fn run<S: Site, R: Source, K: Sink, G: Gate + Sync, T: Threads + Wait + Sync>(
    crew: &Crew<'_, T, G>,
    alloc: Global,
    words: &[String],
    site: &mut S,
    script: &mut R,
    out: &mut K,
) -> Run<S::Store, S::Files>
where
    S::Store: Send,
    ensures serial { names_replay words.now ≡ false
        → ServesTool (number_word words.now) (serial_names words.now)
        (call_of (outside (R.told script.old) (R.told script.new)
        (site_call (S.told site.old) (S.told site.new) S.Store.told S.Files.told))
        (saying_to (K.told out.old) (K.told out.new)) result) }
    ensures replay { names_replay words.now ≡ true
        → Serves beside (replay_names words.now)
        (call_of (outside (R.told script.old) (R.told script.new)
        (site_call (S.told site.old) (S.told site.new) S.Store.told S.Files.told))
        (saying_to (K.told out.old) (K.told out.new)) result) }
{
    if asks_for_threads(words) {
        let room = WithRoom::new(alloc, crew.gate);
        let roomy = Crew {
            threads: crew.threads,
            gate: &room,
        };
        run_replay(&roomy, alloc, words, site, script, out)
    } else {
        run_tool(alloc, words, site, script, out, crew.gate)
    }
}

/// Whether the words ask for the workers of a phase beside each other in threads.
fn asks_for_threads(words: &[String]) -> bool
    ensures { result ≡ names_replay words.now }
{
    match words {
        [word, ..] => word.as_str() == "replay",
        [] => false,
    }
}

/// The words after the program's name; none, which are no form of a call, where one of them is no text.
fn words_of(alloc: Global, rt: &HostRuntime) -> io::Result<Vec<String>> {
    match env::args(rt) {
        Ok(words) => Ok(words.skip(1).collect(alloc)?),
        Err(error) if error.kind() == io::ErrorKind::OutOfMemory => Err(error),
        Err(_) => Ok(Vec::new(alloc)),
    }
}

//! The call `replay`: a script is run with the workers of each phase in threads. It promises what `serial` promises,
//! but not that it returns, since it waits for turns and threads.

ghost use Rattle.call_verdicts.specs.Outside.{outside, site_call};
ghost use Rattle.call_verdicts.specs.Verdicts.{saying_to};
ghost use Rattle.call_verdicts.specs.Words.{named_by, replay_names};
ghost use Rattle.replay_cli.specs.Calls.{Leaves, run_names};
ghost use Rattle.replay_cli.specs.Promises.{Serves, call_of};
ghost use Rattle.replay_cli.specs.Ways.{beside};

use crate::checking::Beside;
use crate::preparing::{Prepared, prepare};
use crate::runner::{Crew, run_with_threads};
use bucket_core::{Sink, Site, Source};
use call_verdicts::{Ended, Named, Run, Verdict, read_replay};
use phase_runner::Gate;
use std::alloc::Global;
use std::sync::Wait;
use std::thread::Threads;

/// Does all that `run_tool` does for a script, with the workers of a phase beside each other in threads. The words are `replay BUCKET SHELF`.
///
/// It may wait, and its promise holds if it returns.
pub fn run_replay<S: Site, R: Source, K: Sink, G: Gate + Sync, T: Threads + Wait + Sync>(
    crew: &Crew<'_, T, G>,
    alloc: Global,
    words: &[String],
    site: &mut S,
    script: &mut R,
    out: &mut K,
) -> Run<S::Store, S::Files>
where
    S::Store: Send,
    // It promises what `run_tool` promises of a script. The journal is one of workers beside each other, and the verdict tells that it is
    // full just where an operation was answered so, and memory was wanted for none.
    ensures { Serves beside (replay_names words.now)
        (call_of (outside (R.told script.old) (R.told script.new)
        (site_call (S.told site.old) (S.told site.new) S.Store.told S.Files.told))
        (saying_to (K.told out.old) (K.told out.new)) result) }
{
    come_to(crew, alloc, words, site, script).into_run(alloc, out)
}

/// Does all but the writing.
fn come_to<S: Site, R: Source, G: Gate + Sync, T: Threads + Wait + Sync>(
    crew: &Crew<'_, T, G>,
    alloc: Global,
    words: &[String],
    site: &mut S,
    script: &mut R,
) -> Ended<S::Store, S::Files>
where
    S::Store: Send,
    ensures { Leaves beside (outside (R.told script.old) (R.told script.new)
        (site_call (S.told site.old) (S.told site.new) S.Store.told S.Files.told))
        (replay_names words.now) result }
{
    match read_replay(words) {
        Some(named) => read_and_run(crew, alloc, &named, site, script),
        None => Ended::without_bucket(Verdict::WordsRefused, None),
    }
}

/// Reads the script and runs it.
#[tactic(auto, using(crate::proofs::Calls::may_run))]
fn read_and_run<S: Site, R: Source, G: Gate + Sync, T: Threads + Wait + Sync>(
    crew: &Crew<'_, T, G>,
    alloc: Global,
    named: &Named<'_>,
    site: &mut S,
    script: &mut R,
) -> Ended<S::Store, S::Files>
where
    S::Store: Send,
    ensures { Leaves beside (outside (R.told script.old) (R.told script.new)
        (site_call (S.told site.old) (S.told site.new) S.Store.told S.Files.told))
        (run_names named.now.bucket.now (named_by named.now.shelf.now)) result }
{
    let rt = crew.threads;
    match prepare(alloc, named, site, script, &Beside { rt }) {
        Ok(
            Prepared {
                script,
                blocks,
                world,
                shelf,
            },
        ) => {
            let read = blocks.members();
            let (verdict, run) = run_with_threads(crew, alloc, &script, read, world);
            drop(blocks);
            drop(script);
            Ended::of_run(verdict, run, shelf)
        }
        Err(ended) => ended,
    }
}

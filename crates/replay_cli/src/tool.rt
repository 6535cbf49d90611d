//! The calls that wait for nobody: `serial`, `check` and `generate`. The contract of this one function is what the
//! program promises, of its verdict, of the bucket and the shelf that it opened, and of its run.

ghost use Rattle.call_verdicts.specs.Outside.{outside, site_call};
ghost use Rattle.call_verdicts.specs.Verdicts.{saying_to};
ghost use Rattle.call_verdicts.specs.Words.{named_by, number_word, serial_names};
ghost use Rattle.replay_cli.specs.Calls.{Leaves, run_names};
ghost use Rattle.replay_cli.specs.Promises.{ServesTool, call_of};
ghost use Rattle.replay_cli.specs.Ways.{in_line};

use crate::day::run_day;
use crate::preparing::{Prepared, prepare};
use crate::runner::run_in_line;
use bucket_core::{Sink, Site, Source};
use call_verdicts::{
    Ended, InTurn, Named, Run, Verdict, check_block, read_check, read_generate, read_serial,
};
use phase_runner::Gate;
use std::alloc::Global;

/// Does what the words `serial BUCKET SHELF`, `check SHELF ULID` and `generate NUMBER` ask for: it reads the script to its end, runs
/// it over the bucket that the site hands out, one task after another, and writes the report; or it checks a block of a shelf; or it
/// runs the generated day over a bucket of its own, and writes its summary. The words are those of the command line after the
/// program's name, and no others have a meaning here. It waits for nobody. The gate is told how far the run is.
pub fn run_tool<S: Site, R: Source, K: Sink, G: Gate>(
    alloc: Global,
    words: &[String],
    site: &mut S,
    script: &mut R,
    out: &mut K,
    gate: &G,
) -> Run<S::Store, S::Files>
    // Why it ends as it does, what comes of its bucket and its shelf, what the check of a block says, and the generated day.
    ensures { ServesTool (number_word words.now) (serial_names words.now)
        (call_of (outside (R.told script.old) (R.told script.new)
        (site_call (S.told site.old) (S.told site.new) S.Store.told S.Files.told))
        (saying_to (K.told out.old) (K.told out.new)) result) }
{
    match read_generate(words) {
        Some(number) => {
            let (ended, day) = run_day(alloc, number, gate);
            let mut run = ended.into_run(alloc, out);
            run.day = day;
            run
        }
        None => come_to(alloc, words, site, script, gate).into_run(alloc, out),
    }
}

/// Does all but the writing, where the words name no generated day.
fn come_to<S: Site, R: Source, G: Gate>(
    alloc: Global,
    words: &[String],
    site: &mut S,
    script: &mut R,
    gate: &G,
) -> Ended<S::Store, S::Files>
    ensures { Leaves in_line (outside (R.told script.old) (R.told script.new)
        (site_call (S.told site.old) (S.told site.new) S.Store.told S.Files.told))
        (serial_names words.now) result }
{
    if let Some(named) = read_serial(words) {
        return read_and_run(alloc, &named, site, script, gate);
    }
    match read_check(words) {
        Some(asked) => check_block(alloc, asked.shelf, asked.block, site),
        None => Ended::without_bucket(Verdict::WordsRefused, None),
    }
}

/// Reads the script and runs it.
#[tactic(auto, using(crate::proofs::Calls::may_run))]
fn read_and_run<S: Site, R: Source, G: Gate>(
    alloc: Global,
    named: &Named<'_>,
    site: &mut S,
    script: &mut R,
    gate: &G,
) -> Ended<S::Store, S::Files>
    ensures { Leaves in_line (outside (R.told script.old) (R.told script.new)
        (site_call (S.told site.old) (S.told site.new) S.Store.told S.Files.told))
        (run_names named.now.bucket.now (named_by named.now.shelf.now)) result }
{
    match prepare(alloc, named, site, script, &InTurn) {
        Ok(
            Prepared {
                script,
                blocks,
                world,
                shelf,
            },
        ) => {
            let (verdict, run) = run_in_line(alloc, &script, blocks.members(), world, gate);
            drop(blocks);
            drop(script);
            Ended::of_run(verdict, run, shelf)
        }
        Err(ended) => ended,
    }
}

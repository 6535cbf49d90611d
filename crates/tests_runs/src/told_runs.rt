//! A run over a bucket that tells what it was asked.

ghost use Rattle.std.specs.Prelude.{◌≡◌};
ghost use Rattle.tests_runs.specs.Told.{IsAskedForAll};

use crate::strange_bucket::{StrangeBucket, StrangeSite};
use bucket_core::{MemoryShelf, Sink, Source};
use phase_runner::Open;
use replay_cli::{Run, run_tool};
use std::alloc::Global;

/// Does what the words ask for.
pub fn run_told<R: Source, K: Sink>(
    alloc: Global,
    words: &[String],
    site: &mut StrangeSite,
    script: &mut R,
    out: &mut K,
) -> Run<StrangeBucket, MemoryShelf>
    // A run that ends as asked has asked its bucket for one page, and then for the calls of its journal.
    ensures { result.status ≡ 0 → IsAskedForAll result.journal result.store }
{
    run_tool(alloc, words, site, script, out, &Open)
}

//! A gateway's call, which hands on what it keeps.

ghost use Rattle.std.specs.Prelude.{None};
ghost use Rattle.store_ranges.specs.Caches.{held};
ghost use Rattle.world_core.specs.Machines.{Drives, is_driven_full, is_driven_wanting};
ghost use Rattle.world_core.specs.Turning.{Turned};
ghost use Rattle.store_calls.specs.SeriesCalls.{asking};
ghost use Rattle.store_calls.specs.CallRuns.{CallRun};

use crate::{SeriesCall, SeriesEnd};
use base::NoMemory;
use label_sets::TextList;
use matchers::Selector;
use meta_fetcher::View;
use std::alloc::Global;
use store_ranges::IndexCache;
use world_core::{Driven, Hand, drive};

/// How a gateway's call ended, and the ranges that it keeps then.
#[derive(Drop)]
pub struct CallLeft {
    pub end: SeriesEnd,
    pub cache: IndexCache,
}

/// A gateway's call over a view, for the series that the selector matches, with their samples from `low` to `high`, by the
/// ranges that it kept. It hands on what it keeps then, unless it is broken off.
pub fn run_call<H: Hand>(
    alloc: Global,
    view: &View,
    selector: &Selector,
    replicas: &TextList,
    low: i64,
    high: i64,
    cache: IndexCache,
    hand: &mut H,
) -> Driven<CallLeft>
    ensures run { Drives
        (CallRun view.now (asking selector.now replicas.now low high) (held cache))
        (H.told hand.old).seat None result (H.told hand.old).entries (H.told hand.new).entries }
    ensures hand { Turned H.told H.keeps hand.old hand.new (is_driven_full result)
        (is_driven_wanting result) }
{
    match SeriesCall::start(alloc, view, selector, replicas, low, high, cache) {
        Ok(mut machine) => match drive(&mut machine, hand, None) {
            Driven::Ended(end) => {
                let left = machine.into_cache();
                Driven::Ended(CallLeft { end, cache: left })
            }
            Driven::Full => {
                drop(machine);
                Driven::Full
            }
            Driven::Stopped(_) | Driven::NoMemory => {
                drop(machine);
                Driven::NoMemory
            }
        },
        Err(NoMemory) => Driven::NoMemory,
    }
}

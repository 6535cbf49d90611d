//! One task of a script, done by its worker.

ghost use Rattle.std.specs.Prelude.{◌≡◌, ◌==◌, ◌<◌, ℕ, List, FitsSigned, Some, IfOk, IfSome, find, length, option_map, slice_get};
ghost use Rattle.std.specs.Int.{w64};
ghost use Rattle.world_core.specs.Turning.{Turned};
ghost use Rattle.store_calls.specs.SeriesCalls.{asking};
ghost use Rattle.matchers.specs.declared.matcher.Matcher.{Matcher};
ghost use Rattle.lifecycle_core.specs.Conducts.{Who};
ghost use Rattle.lifecycle_core.specs.Holdings.{Holding};
ghost use Rattle.lifecycle_core.specs.Tasks.{TaskRun, ask_to};
ghost use Rattle.script_running.specs.Lending.{setting_in};
ghost use Rattle.script_running.specs.Drives.{cache_by, call_came};
ghost use Rattle.script_running.specs.Outcomes.{IsPart, call_part};
ghost use Rattle.script_running.specs.Sights.{Sees};
ghost use Rattle.script_running.specs.Tasks.{Allows, HasAsked, HasDone, is_full_came, is_short_came};

use crate::activity::{sync, upload};
use crate::sight::own_cache;
use crate::upkeep::{clean, compact};
use crate::{Broken, Came, Means, NoAnswer, Part, QueryPart, Sight};
use base::NoMemory;
use querier::{Answer, Ask, fan_out};
use script_core::Work;
use store_calls::{CallLeft, SeriesEnd, run_call};
use store_ranges::IndexCache;
use world_core::{Driven, Hand};

/// Does what one worker has to do for a task, through a hand of the worker's seat: its upload, compaction or cleaning, its gateway's
/// sync, or its gateway's part of a query. `gateway` is the place of the worker's gateway, if it is one's, and `sight` by what that
/// gateway sees; only a sync and a query touch it.
pub fn run_task<H: Hand>(
    means: &Means<'_>,
    gateway: Option<u32>,
    work: &Work,
    sight: &mut Sight,
    hand: &mut H,
) -> Result<Part, Broken>
    requires { Allows means.now.script work.now }

    // Whatever seat the worker has, and wherever the task stands in its phase: what is done is a run of the task, from what
    // the worker held. If it came to its end, the worker sees by what it holds then.
    ensures done { (who : Who) (place : ℕ) (held : Holding) → who.gateway ≡ gateway
        → Sees held sight.old
        → HasDone (TaskRun (setting_in means.now) who place work.now held) (IsPart work.now)
        (H.told hand.old).seat (H.told hand.old).entries (H.told hand.new).entries
        sight.new result }

    // The task is broken off as full exactly where an operation was answered so, and then the journal is full. Memory was
    // wanted in an operation only where the task is broken off for that.
    ensures hand { Turned H.told H.keeps hand.old hand.new (is_full_came result)
        (is_short_came result) }
{
    let alloc = means.alloc();
    match work {
        Work::Upload(ulid, stop) => upload(alloc, means.block(*ulid), means.shelf(), *stop, hand),
        Work::Sync(place) => sync(alloc, means, *place, &mut sight.view, hand),
        Work::Compact(stop) => compact(alloc, means.rules(), *stop, hand),
        Work::Clean(stop) => clean(alloc, means.rules(), *stop, hand),
        Work::Query {
            low,
            high,
            selector,
        } => {
            let Ok(asked) = ask_to(means, gateway, *low, *high) else {
                return Err(Broken::NoMemory);
            };
            match asked {
                Some(ask) => ask_view(means, &ask, *selector as usize, sight, hand),
                None => Ok(Came::Query(QueryPart::NotAsked)),
            }
        }
    }
}

/// What a worker is asked in a query for the times from `low` to `high`, if it is a gateway's, and that is asked.
fn ask_to(
    means: &Means<'_>,
    gateway: Option<u32>,
    low: i64,
    high: i64,
) -> Result<Option<Ask>, NoMemory>
    ensures asked { IfOk result (λ ask. ask ≡ ask_to (setting_in means.now) gateway low high) }
    ensures fits { IfOk result (λ ask. IfSome ask
        (λ own. FitsSigned w64 own.low × FitsSigned w64 own.high)) }
{
    let Some(gateway) = gateway else {
        return Ok(None);
    };
    let asks = fan_out(means.alloc(), means.partitions(), low, high)?;
    Ok(find_ask(asks.members(), gateway).copied())
}

fn find_ask(asks: &[Ask], gateway: u32) -> Option<&Ask>
    ensures { option_map (λ ask. ask.now) result
        ≡ find (λ ask. ask.gateway == gateway) asks.now }
{
    asks.iter().find(|ask| ask.gateway == gateway)
}

/// A gateway's answer for the times that it is asked, to the selector at a place: its call over its view, if it has one, by the
/// ranges that it kept.
fn ask_view<H: Hand>(
    means: &Means<'_>,
    ask: &Ask,
    number: usize,
    sight: &mut Sight,
    hand: &mut H,
) -> Result<Part, Broken>
    requires selector { number < length means.now.script.selectors }
    requires fits { FitsSigned w64 ask.now.low × FitsSigned w64 ask.now.high }
    ensures asked { (held : Holding) (selector : List Matcher) → Sees held sight.old
        → slice_get means.now.script.selectors number ≡ Some selector
        → HasAsked held
        (asking selector means.now.script.rules.replicas ask.now.low ask.now.high)
        (H.told hand.old).seat (H.told hand.old).entries (H.told hand.new).entries
        sight.new result }
    ensures hand { Turned H.told H.keeps hand.old hand.new (is_full_came result)
        (is_short_came result) }
{
    let Some(view) = &sight.view else {
        return Ok(Came::Query(QueryPart::NoView));
    };
    let Ok(selector) = means.selector(number) else {
        return Err(Broken::NoMemory);
    };
    let Ok(own) = own_cache(means.alloc(), sight.cache.take()) else {
        return Err(Broken::NoMemory);
    };
    let driven = run_call(
        means.alloc(),
        view,
        &selector,
        &means.rules().replicas,
        ask.low,
        ask.high,
        own,
        hand,
    );
    take_cache(driven, view.first, &mut sight.cache)
}

/// What a drive of a call came to, over the view with this first entry. The ranges that it left are the gateway's from now on.
fn take_cache(
    driven: Driven<CallLeft>,
    first: u64,
    cache: &mut Option<IndexCache>,
) -> Result<Part, Broken>
    ensures came { result ≡ call_came first driven }
    ensures cache { cache.new ≡ cache_by cache.old driven }
{
    match driven {
        Driven::Ended(left) => {
            let CallLeft { end, cache: own } = left;
            *cache = Some(own);
            Ok(Came::Query(call_part(first, end)))
        }
        Driven::Full => Err(Broken::Full),
        Driven::Stopped(_) | Driven::NoMemory => Err(Broken::NoMemory),
    }
}

fn call_part(first: u64, end: SeriesEnd) -> QueryPart
    ensures { result ≡ call_part first end }
{
    match end {
        SeriesEnd::Answer { series, sources } => {
            QueryPart::Answer(Answer { series, sources }, first)
        }
        SeriesEnd::Missing(entry) => QueryPart::NoAnswer(NoAnswer::Missing(entry), first),
        SeriesEnd::Damaged(entry) => QueryPart::NoAnswer(NoAnswer::Damaged(entry), first),
        SeriesEnd::Fault(entry) => QueryPart::NoAnswer(NoAnswer::Fault(entry), first),
    }
}

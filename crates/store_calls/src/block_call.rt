//! The call of a gateway for one block.

ghost use Rattle.std.specs.Prelude.{◌≡◌, ◌≤◌, ℕ, List, IsSome, IsSomeAnd, Option, Some};
ghost use Rattle.store_ranges.specs.Caches.{held};
ghost use Rattle.world_core.specs.Operations.{IsAnswer, entry_of};
ghost use Rattle.world_core.specs.declared.entry.Entry.{Entry};
ghost use Rattle.world_core.specs.declared.op.Op.{Op};
ghost use Rattle.store_ranges.specs.Reads.{block_of};
ghost use Rattle.store_calls.specs.BlockRuns.{Leading};
ghost use Rattle.store_calls.specs.WorkStates.{Leads, Where, Holds, asked_at, count_at, with_bytes, goes_after};

use crate::chunk_steps::{take_group, take_single};
use crate::index_steps::{
    begin, lists_range, symbols_range, table_range, take_contents, take_lists, take_run,
    take_symbols, take_table, take_whole,
};
use crate::work::{Step, Work};
use base::NoMemory;
use block_keys::Key;
use block_meta::Meta;
use label_sets::{SeriesList, TextList};
use matchers::Selector;
use std::alloc::Global;
use std::mem;
use store_ranges::{Asked, IndexCache, keep};
use ulid_core::Ulid;
use wire_bytes::Blob;
use world_core::{Act, Machine, Reply, Seen};

/// What the reads of a block came to.
#[derive(Drop)]
pub enum BlockOutcome {
    /// The samples in the range of the series that the selector takes, under their final labels, in
    /// the order of the index.
    Taken(SeriesList),
    /// The read at the entry of this number found no object.
    Missing(u64),
    /// What was read at the entry of this number is no index, or no chunk of the block.
    Damaged(u64),
    /// The entry of this number was answered that the call failed.
    Fault(u64),
}

/// The reads of one block by ranges: of its index, and of the chunks of the series that a selector
/// takes. It answers the samples in the range, and leaves the cache with the ranges that it read or
/// used.
#[derive(Drop)]
pub struct BlockCall<'a> {
    asked: Asked<'a>,
    cache: IndexCache,
    work: Work,
}

impl<'a> BlockCall<'a> {
    ghost use Rattle.std.specs.Prelude.{◌↔◌};
    ghost use Rattle.store_calls.specs.declared.block_call.BlockOutcome.{BlockOutcome};
    ghost use Rattle.store_calls.specs.BlockRuns.{BlockRun, cache_of, most_reads};
    ghost use Rattle.store_calls.specs.BlockStates.{ActsAs};

    /// Begins a call for the series that the selector takes, with their samples from `low` to
    /// `high`, both included.
    pub fn start(
        alloc: Global,
        ulid: Ulid,
        meta: &'a Meta,
        selector: &'a Selector,
        replicas: &'a TextList,
        low: i64,
        high: i64,
        cache: IndexCache,
    ) -> BlockCall<'a>
        ensures begun { ⟦<BlockCall<'a> as Machine>⟧.fresh result }
        // What it may do is what the call of the block comes to, with the cache that it leaves.
        ensures run { (entries : List Entry) (end : Option BlockOutcome) (last : BlockCall)
            → ⟦<BlockCall<'a> as Machine>⟧.may result entries end last
            ↔ BlockRun
            (record { selector = selector.now; replicas = replicas.now; low = low; high = high })
            (block_of ulid meta.now) (held cache) entries end (cache_of last) }
        ensures few { ⟦<BlockCall<'a> as Machine>⟧.measure result ≤ most_reads }
    {
        BlockCall {
            asked: Asked {
                alloc,
                ulid,
                meta,
                selector,
                replicas,
                low,
                high,
            },
            cache,
            work: Work::Fresh,
        }
    }

    /// The cache as the call left it.
    pub fn into_cache(self) -> IndexCache
        ensures { held result ≡ cache_of self.entry }
    {
        self.cache
    }

    /// Waits, or ends.
    fn act(&mut self, step: Step) -> Act<BlockOutcome>
        ensures { ActsAs self.old step result self.new }
    {
        match step {
            Step::Wait(op, work) => {
                drop(mem::replace(&mut self.work, work));
                Act::Do(op)
            }
            Step::Done(end) => Act::Done(end),
        }
    }
}

/// Goes on behind the bytes that were waited for.
fn take_bytes(
    asked: &Asked<'_>,
    cache: &mut IndexCache,
    work: Work,
    seq: u64,
    bytes: Blob,
) -> Result<Step, NoMemory>
    requires { IsSome (asked_at asked.now.ulid work) }
    ensures { Leads asked.now (held cache.new) (count_at work)
        (Where (Holds work) (Leading
        (with_bytes asked.now work (held cache.old) seq bytes))) result }
{
    match work {
        Work::Contents(size) => take_contents(asked, cache, size, seq, bytes.bytes()),
        Work::Symbols(places) => {
            keep(cache, Key::Index(asked.ulid), symbols_range(places), &bytes)?;
            take_symbols(asked, cache, places, seq, bytes)
        }
        Work::Table(read) => {
            keep(cache, Key::Index(asked.ulid), table_range(&read), &bytes)?;
            take_table(asked, cache, read, seq, bytes)
        }
        Work::Lists(read) => {
            keep(cache, Key::Index(asked.ulid), lists_range(&read), &bytes)?;
            take_lists(asked, cache, read, seq, bytes)
        }
        Work::Run(runs) => {
            keep(cache, Key::Index(asked.ulid), runs.run.range, &bytes)?;
            take_run(asked, cache, seq, runs, &bytes)
        }
        Work::Whole => take_whole(asked, seq, bytes.bytes()),
        Work::Group(chunks) => take_group(asked, seq, chunks, bytes),
        Work::Single(chunks, reference, _, pending) => {
            take_single(asked, seq, chunks, reference, pending, bytes.bytes())
        }
        Work::Fresh | Work::Over => unreachable!(),
    }
}

/// Goes on behind a reply.
fn go_on(
    asked: &Asked<'_>,
    cache: &mut IndexCache,
    work: Work,
    seen: Seen,
) -> Result<Step, NoMemory>
    requires { IsSomeAnd (asked_at asked.now.ulid work) (λ op. IsAnswer op seen) }
    ensures { (seat : ℕ) (op : Op) → asked_at asked.now.ulid work ≡ Some op
        → Leads asked.now (held cache.new) (count_at work)
        (goes_after asked.now work (held cache.old) (entry_of seat op seen)) result }
{
    let Seen {
        seq,
        moment: _,
        reply,
    } = seen;
    match reply {
        Reply::Found(bytes) => take_bytes(asked, cache, work, seq, bytes),
        Reply::Absent => Ok(Step::Done(BlockOutcome::Missing(seq))),
        Reply::Failed(_) => Ok(Step::Done(BlockOutcome::Fault(seq))),
        _ => unreachable!(),
    }
}

impl<'a> Machine for BlockCall<'a> {
    type End = BlockOutcome;

    ghost use Rattle.std.specs.Prelude.{[]};
    ghost use Rattle.world_core.specs.Machines.{GoesOn, Falls};
    ghost use Rattle.store_calls.specs.BlockStates.{IsFresh, may_call, asked_call, count_call};

    ghost may = { may_call };

    ghost asked = { asked_call };

    ghost measure = { count_call };

    ghost fresh = { IsFresh };

    fn first(&mut self) -> Result<Act<BlockOutcome>, NoMemory>
        requires { IsFresh self.old }
        ensures goes_on { GoesOn may_call asked_call self.old [] result self.new }
        ensures falls { Falls (count_call self.old) result (count_call self.new) }
    {
        let step = begin(&self.asked);
        Ok(self.act(step))
    }

    fn step(&mut self, seen: Seen) -> Result<Act<BlockOutcome>, NoMemory> {
        let work = mem::replace(&mut self.work, Work::Over);
        let step = go_on(&self.asked, &mut self.cache, work, seen)?;
        Ok(self.act(step))
    }
}

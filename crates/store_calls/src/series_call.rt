//! The machine of a gateway's call (Thanos: `Series` of the store API): the blocks of its view one after another, and
//! the merge of what each gives. The ranges that it keeps go from block to block, and on to the gateway's next call.

ghost use Rattle.std.specs.Prelude.{◌≡◌, ◌+◌, ◌<◌, ℕ, List, [], ◌∷◌, Option, Some, Ok, IfOk, IsSomeAnd};
ghost use Rattle.world_core.specs.Operations.{IsAnswer, entry_of};
ghost use Rattle.world_core.specs.Machines.{GoesOn, Falls};
ghost use Rattle.world_core.specs.declared.op.Op.{Op};
ghost use Rattle.world_core.specs.declared.entry.Entry.{Entry};
ghost use Rattle.world_core.specs.declared.act.Act.TheVariants as act;
ghost use Rattle.store_ranges.specs.Caches.{held};
ghost use Rattle.store_ranges.specs.Reads.{block_of};
ghost use Rattle.store_calls.specs.SeriesCalls.{SeriesRun, asking};
ghost use Rattle.store_calls.specs.BlockRuns.{most_reads};
ghost use Rattle.store_calls.specs.declared.series_call.Stage.TheVariants as stage;
ghost use Rattle.store_calls.specs.declared.series_call.SeriesEnd.{SeriesEnd};

use crate::select::{Wanted, all_sources, from_first_meeting, high_of, low_of};
use crate::{BlockCall, BlockOutcome};
use base::NoMemory;
use label_sets::{SeriesList, TextList};
use matchers::Selector;
use meta_fetcher::View;
use std::alloc::Global;
use std::mem;
use store_ranges::IndexCache;
use sync_filters::Found;
use ulid_core::UlidList;
use vertical_merge::Merger;
use world_core::{Act, Machine, Seen};

/// How a series call ended.
#[derive(Drop)]
pub enum SeriesEnd {
    Answer {
        /// The series under their final labels, ascending, with the samples in the range.
        series: SeriesList,
        /// The sources of all kept blocks of the view, ascending, each once.
        sources: UlidList,
    },
    /// The read at the entry of this number found no object.
    Missing(u64),
    /// What was read at the entry of this number is no index, or no chunk of its block.
    Damaged(u64),
    /// The entry of this number was answered that the call failed.
    Fault(u64),
}

/// Where a series call stands.
#[derive(Drop)]
pub(crate) enum Stage<'a> {
    /// It was not begun.
    Fresh(IndexCache),
    /// It reads a block.
    Reading(BlockCall<'a>),
    /// It has come to its end.
    Over(IndexCache),
    /// It wanted memory.
    Lost,
}

/// The call of one gateway for a query: it reads ranges of each kept block that meets the range of
/// times, and answers the merged samples.
#[derive(Drop)]
pub struct SeriesCall<'a> {
    alloc: Global,
    /// The blocks of the view.
    kept: &'a [Found],
    wanted: Wanted<'a>,
    stage: Stage<'a>,
    /// The blocks behind the one that is read.
    left: &'a [Found],
    merger: Merger,
}

impl<'a> SeriesCall<'a> {
    ghost use Rattle.store_calls.specs.CallStates.{Leads, after_reads, asked_call, count_call, count_left, left_of, may_call, reads_of};
    ghost use Rattle.store_calls.specs.Endings.{IsOver, Leaves, ended_with};
    ghost use Rattle.store_calls.specs.declared.series_call.SeriesCall.{SeriesCall};

    /// Begins a call over a view for the series that the selector matches, with their samples from
    /// `low` to `high`, both included. The cache is the gateway's. Beginning takes no memory.
    pub fn start(
        alloc: Global,
        view: &'a View,
        selector: &'a Selector,
        replicas: &'a TextList,
        low: i64,
        high: i64,
        cache: IndexCache,
    ) -> Result<SeriesCall<'a>, NoMemory>
        ensures begun { IfOk result ⟦<SeriesCall<'a> as Machine>⟧.fresh }
        ensures run { IfOk result
            (λ call. (entries : List Entry) (end : Option SeriesEnd) (last : SeriesCall)
            → ⟦<SeriesCall<'a> as Machine>⟧.may call entries end last
            → SeriesRun view.now (asking selector.now replicas.now low high) (held cache) entries
            (ended_with end last)) }
        ensures over { IfOk result
            (λ call. (entries : List Entry) (end : SeriesEnd) (last : SeriesCall)
            → ⟦<SeriesCall<'a> as Machine>⟧.may call entries (Some end) last → IsOver last) }
    {
        let kept = view.kept.members();
        Ok(SeriesCall {
            alloc,
            kept,
            wanted: Wanted {
                selector,
                replicas,
                low,
                high,
            },
            stage: Stage::Fresh(cache),
            left: kept,
            merger: Merger::new(alloc),
        })
    }

    /// The gateway's cache as the call left it, once that has come to its end.
    pub fn into_cache(self) -> IndexCache
        requires { IsOver self }
        ensures { Leaves self.entry result }
    {
        let SeriesCall { stage, .. } = self;
        match stage {
            Stage::Over(cache) => cache,
            _ => unreachable!(),
        }
    }

    /// Begins the reads of the first block that is left and meets the range, or answers where there
    /// is none.
    fn read_next(&mut self, cache: IndexCache) -> Result<Act<SeriesEnd>, NoMemory>
        ensures leads { Leads (reads_of self.old (left_of self.old) (held cache)) result self.new }
        ensures falls { Falls (count_left (left_of self.old)) result (count_call self.new) }
    {
        match from_first_meeting(self.left, self.wanted) {
            [block, rest @ ..] => {
                self.left = rest;
                self.begin(block, cache)
            }
            [] => self.answer(cache),
        }
    }

    /// Begins the reads of a block, which stands before those that are left.
    fn begin(&mut self, block: &'a Found, cache: IndexCache) -> Result<Act<SeriesEnd>, NoMemory>
        ensures leads { Leads
            (reads_of self.old (block_of block.now.ulid block.now.meta ∷ left_of self.old)
            (held cache)) result self.new }
        ensures falls { Falls (count_left (left_of self.old) + (most_reads + 1)) result
            (count_call self.new) }
    {
        let wanted = &self.wanted;
        let mut part = BlockCall::start(
            self.alloc,
            block.ulid,
            &block.meta,
            wanted.selector,
            wanted.replicas,
            low_of(wanted),
            high_of(wanted),
            cache,
        );
        match part.first()? {
            Act::Do(op) => {
                self.stage = Stage::Reading(part);
                Ok(Act::Do(op))
            }
            // the reads of a block begin with an operation
            Act::Done(_) => unreachable!(),
        }
    }

    /// Merges what the blocks gave.
    fn answer(&mut self, cache: IndexCache) -> Result<Act<SeriesEnd>, NoMemory>
        ensures leads { Leads (reads_of self.old [] (held cache)) result self.new }
        ensures falls { Falls 0 result (count_call self.new) }
    {
        let sources = all_sources(self.alloc, self.kept)?;
        let merger = mem::replace(&mut self.merger, Merger::new(self.alloc));
        let series = merger.finish()?;
        Ok(self.end(cache, SeriesEnd::Answer { series, sources }))
    }

    /// Ends the call in this way. The cache stays with it, for `into_cache`.
    fn end(&mut self, cache: IndexCache, end: SeriesEnd) -> Act<SeriesEnd>
        ensures done { result ≡ act.Done end }
        ensures over { self.new ≡ record self.old { stage = stage.Over cache } }
    {
        self.stage = Stage::Over(cache);
        Act::Done(end)
    }

    /// Goes on with the reads of a block.
    fn go_on(&mut self, mut part: BlockCall<'a>, seen: Seen) -> Result<Act<SeriesEnd>, NoMemory>
        requires answer { IsSomeAnd (⟦<BlockCall<'a> as Machine>⟧.asked part)
            (λ op. IsAnswer op seen) }
        ensures goes_on { (seat : ℕ) (op : Op)
            → ⟦<BlockCall<'a> as Machine>⟧.asked part.entry ≡ Some op
            → GoesOn may_call asked_call (record self.old { stage = stage.Reading part.entry })
            (entry_of seat op seen ∷ []) result self.new }
        ensures falls { Falls
            (count_left (left_of self.old) + ⟦<BlockCall<'a> as Machine>⟧.measure part.entry) result
            (count_call self.new) }
    {
        match part.step(seen)? {
            Act::Do(op) => {
                self.stage = Stage::Reading(part);
                Ok(Act::Do(op))
            }
            Act::Done(came) => self.after_block(came, part.into_cache()),
        }
    }

    /// Takes what the reads of a block came to, and goes on with the next block, or comes to its
    /// end.
    fn after_block(
        &mut self,
        came: BlockOutcome,
        cache: IndexCache,
    ) -> Result<Act<SeriesEnd>, NoMemory>
        ensures leads { Leads (after_reads self.old came (held cache)) result self.new }
        ensures falls { Falls (count_left (left_of self.old)) result (count_call self.new) }
    {
        match came {
            BlockOutcome::Taken(series) => {
                self.merger.take_all(series)?;
                self.read_next(cache)
            }
            BlockOutcome::Missing(entry) => Ok(self.end(cache, SeriesEnd::Missing(entry))),
            BlockOutcome::Damaged(entry) => Ok(self.end(cache, SeriesEnd::Damaged(entry))),
            BlockOutcome::Fault(entry) => Ok(self.end(cache, SeriesEnd::Fault(entry))),
        }
    }
}

impl<'a> Machine for SeriesCall<'a> {
    type End = SeriesEnd;

    ghost use Rattle.store_calls.specs.CallStates.{IsFresh, asked_call, count_call, may_call};

    ghost may = { may_call };

    ghost asked = { asked_call };

    ghost measure = { count_call };

    ghost fresh = { IsFresh };

    fn first(&mut self) -> Result<Act<SeriesEnd>, NoMemory> {
        let stage = mem::replace(&mut self.stage, Stage::Lost);
        match stage {
            Stage::Fresh(cache) => self.read_next(cache),
            _ => unreachable!(),
        }
    }

    fn step(&mut self, seen: Seen) -> Result<Act<SeriesEnd>, NoMemory> {
        let stage = mem::replace(&mut self.stage, Stage::Lost);
        match stage {
            Stage::Reading(part) => self.go_on(part, seen),
            _ => unreachable!(),
        }
    }
}

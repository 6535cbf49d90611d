//! The blocks of a group as they are read for their merge: whole, since all of their samples go into it. The index says
//! how many segments follow. What is absent, or no index, ends the compaction at that entry.

ghost use Rattle.std.specs.Prelude.{◌≡◌, ◌+◌, ◌*◌, ◌≤◌, ◌<◌, ℕ, List, [], ◌∷◌, ◌++◌, length, Option, Some, IfOk, IsSomeAnd};
ghost use Rattle.ulid_core.specs.Limits.{ulid_time_limit};
ghost use Rattle.block_keys.specs.Keys.{segment_limit};
ghost use Rattle.world_core.specs.Machines.{Falls};
ghost use Rattle.world_core.specs.Operations.{IsAnswer, entry_of};
ghost use Rattle.world_core.specs.Plans.{Runs};
ghost use Rattle.world_core.specs.declared.op.Op.{Op};
ghost use Rattle.world_core.specs.declared.entry.Entry.{Entry};
ghost use Rattle.block_keys.specs.declared.key.Key.TheVariants as key;
ghost use Rattle.world_core.specs.Leads.{after_entry, LeadsBy};
ghost use Rattle.compactor.specs.Named.{named_segments};
ghost use Rattle.compactor.specs.ReadRoom.{last_segment, off, most_off, stage_off, others_of};
ghost use Rattle.compactor.specs.declared.reads_end.ReadsEnd.{ReadsEnd};

use crate::input::{Input, InputList, Read, ReadList};
use crate::named::named_segments;
use crate::reads_end::{Gathered, ReadsEnd};
use base::NoMemory;
use block_keys::Key;
use block_meta::Meta;
use moment_core::Moment;
use std::alloc::Global;
use std::collections::VecDeque;
use std::mem;
use world_core::{Act, Machine, Op, Reply, Seen};

/// How far the reads of blocks have come.
#[derive(Drop)]
pub(crate) enum ReadStage {
    /// They were not begun; this block is the first.
    Fresh(Meta),
    /// They wait for the index of the block.
    Indexing(Meta),
    /// They wait for the next segment of the block, and so many follow on that.
    Segmenting(Input, u32),
    /// They have come to their end.
    Over,
}

/// The reads of blocks, one after another: of each its index, and then the segments that the index names.
#[derive(Drop)]
pub struct Reads {
    alloc: Global,
    stage: ReadStage,
    /// The blocks that are still to be read.
    waiting: VecDeque<Meta>,
    /// Those that were read.
    inputs: InputList,
    ghost room: { last_segment stage ≤ segment_limit },
    ghost named: { most_off inputs ≤ 0 },
    ghost names: { stage_off stage ≤ 0 },
    ghost many: { others_of stage ≤ length inputs + length waiting.items },
}

impl Reads {
    ghost use Rattle.compactor.specs.Reading.{block_of, blocks_of};
    ghost use Rattle.compactor.specs.ReadStates.{segments_of, left_at, left_of, asked_read, most_read, count_of, Fits};

    /// Begins the reads of a block and of those behind it, of which there is one at least.
    pub fn start(alloc: Global, first: Meta, others: VecDeque<Meta>) -> Reads
        requires many { 1 ≤ length others.items }
        ensures begun { ⟦<Reads as Machine>⟧.fresh result }
        ensures run { (entries : List Entry) (end : Option ReadsEnd) (last : Reads)
            → ⟦<Reads as Machine>⟧.may result entries end last
            → Runs (block_of [] others.items first) entries end }
    {
        Reads {
            alloc,
            stage: ReadStage::Fresh(first),
            waiting: others,
            inputs: InputList::new(alloc),
        }
    }

    /// Asks for the index of a block.
    fn ask_index(&mut self, meta: Meta) -> Result<Act<ReadsEnd>, NoMemory>
        requires many { 1 ≤ length self.old.inputs + length self.old.waiting.items }
        ensures leads { LeadsBy left_of asked_read
            (block_of self.old.inputs self.old.waiting.items meta) result self.new }
        ensures fits { Fits result }
        ensures falls { Falls (most_read * length self.old.waiting.items + (most_read + 1)) result
            (count_of self.new) }
    {
        let key = Key::Index(meta.ulid);
        drop(mem::replace(&mut self.stage, ReadStage::Indexing(meta)));
        Ok(Act::Do(Op::Get(key)))
    }

    /// Goes on after the read of the index of a block.
    fn after_index(&mut self, meta: Meta, seen: Seen) -> Result<Act<ReadsEnd>, NoMemory>
        requires many { 1 ≤ length self.old.inputs + length self.old.waiting.items }
        requires answer { IsAnswer (Op.Get (key.Index meta.ulid)) seen }
        ensures leads { (seat : ℕ) (op : Op) → LeadsBy left_of asked_read
            (after_entry (block_of self.old.inputs self.old.waiting.items meta)
            (entry_of seat op seen)) result self.new }
        ensures fits { Fits result }
        ensures falls { Falls (most_read * length self.old.waiting.items + most_read) result
            (count_of self.new) }
    {
        let Seen { seq, moment, reply } = seen;
        match reply {
            Reply::Found(bytes) => match named_segments(self.alloc, bytes.bytes())? {
                Some(count) => {
                    let input = Input {
                        meta,
                        index: Read { number: seq, bytes },
                        segments: ReadList::new(self.alloc),
                    };
                    self.next_segment(input, count, seq, moment)
                }
                None => Ok(Act::Done(ReadsEnd::Damaged(seq))),
            },
            Reply::Absent => Ok(Act::Done(ReadsEnd::Missing(seq))),
            Reply::Failed(_) => Ok(Act::Done(ReadsEnd::Fault(seq))),
            _ => unreachable!(),
        }
    }

    /// Goes on after the read of the next segment of a block, on which so many follow.
    fn after_segment(
        &mut self,
        mut input: Input,
        more: u32,
        seen: Seen,
    ) -> Result<Act<ReadsEnd>, NoMemory>
        requires many { 1 ≤ length self.old.inputs + length self.old.waiting.items }
        requires answer { IsAnswer (Op.Get
            (key.Segment input.meta.ulid (length input.segments + 1))) seen }
        requires room { length input.segments + 1 + more ≤ segment_limit }
        requires named { off (named_segments input.index.bytes)
            (length input.segments + 1 + more) ≤ 0 }
        ensures leads { (seat : ℕ) (op : Op) → LeadsBy left_of asked_read
            (after_entry (left_at (ReadStage.Segmenting input more) self.old.inputs
            self.old.waiting.items) (entry_of seat op seen)) result self.new }
        ensures fits { Fits result }
        ensures falls { Falls (most_read * length self.old.waiting.items + more + 1) result
            (count_of self.new) }
    {
        let Seen { seq, moment, reply } = seen;
        match reply {
            Reply::Found(bytes) => {
                input.segments.push(Read { number: seq, bytes })?;
                self.next_segment(input, more, seq, moment)
            }
            Reply::Absent => Ok(Act::Done(ReadsEnd::Missing(seq))),
            Reply::Failed(_) => Ok(Act::Done(ReadsEnd::Fault(seq))),
            _ => unreachable!(),
        }
    }

    /// Asks for the next of so many segments of a block, or goes on to the next block. The last object was read at the entry of
    /// this number.
    fn next_segment(
        &mut self,
        input: Input,
        more: u32,
        number: u64,
        moment: Moment,
    ) -> Result<Act<ReadsEnd>, NoMemory>
        requires many { 1 ≤ length self.old.inputs + length self.old.waiting.items }
        requires room { length input.segments + more ≤ segment_limit }
        requires named { off (named_segments input.index.bytes)
            (length input.segments + more) ≤ 0 }
        requires moment { moment.ms < ulid_time_limit }
        ensures leads { (last : Entry) → last.seq ≡ number → last.moment ≡ moment
            → LeadsBy left_of asked_read
            (segments_of self.old.inputs self.old.waiting.items input more last) result self.new }
        ensures fits { Fits result }
        ensures falls { Falls (most_read * length self.old.waiting.items + more + 1) result
            (count_of self.new) }
    {
        if more > 0 {
            let key = next_key(&input);
            drop(mem::replace(&mut self.stage, ReadStage::Segmenting(input, more - 1)));
            Ok(Act::Do(Op::Get(key)))
        } else {
            self.inputs.push(input)?;
            self.next_block(number, moment)
        }
    }

    /// Goes on to the next block, or ends where there is none.
    fn next_block(&mut self, number: u64, moment: Moment) -> Result<Act<ReadsEnd>, NoMemory>
        requires many { 2 ≤ length self.old.inputs + length self.old.waiting.items }
        requires moment { moment.ms < ulid_time_limit }
        ensures leads { (last : Entry) → last.seq ≡ number → last.moment ≡ moment
            → LeadsBy left_of asked_read
            (blocks_of self.old.inputs self.old.waiting.items last) result self.new }
        ensures fits { Fits result }
        ensures falls { Falls (most_read * length self.old.waiting.items + 1) result
            (count_of self.new) }
    {
        match self.waiting.pop_front() {
            Some(meta) => self.ask_index(meta),
            None => {
                drop(mem::replace(&mut self.stage, ReadStage::Over));
                let inputs = mem::replace(&mut self.inputs, InputList::new(self.alloc));
                Ok(Act::Done(ReadsEnd::Done(Gathered {
                    inputs,
                    number,
                    moment,
                })))
            }
        }
    }
}

/// The key of the next segment of a block.
fn next_key(input: &Input) -> Key
    requires { length input.now.segments < segment_limit }
    ensures { result ≡ key.Segment input.now.meta.ulid (length input.now.segments + 1) }
{
    Key::Segment(input.meta.ulid, input.segments.len() as u32 + 1)
}

impl Machine for Reads {
    type End = ReadsEnd;

    ghost use Rattle.block_meta.specs.declared.meta.Meta.{Meta};
    ghost use Rattle.compactor.specs.ReadStates.{may_read, asked_read, count_of};
    ghost use Rattle.compactor.specs.declared.reads.ReadStage.TheVariants.{Fresh};

    ghost may = { may_read };

    ghost asked = { asked_read };

    ghost measure = { count_of };

    ghost fresh = { λ reads. (meta : Meta) × (reads.stage ≡ Fresh meta) };

    fn first(&mut self) -> Result<Act<ReadsEnd>, NoMemory> {
        let stage = mem::replace(&mut self.stage, ReadStage::Over);
        match stage {
            ReadStage::Fresh(meta) => self.ask_index(meta),
            _ => unreachable!(),
        }
    }

    fn step(&mut self, seen: Seen) -> Result<Act<ReadsEnd>, NoMemory> {
        let stage = mem::replace(&mut self.stage, ReadStage::Over);
        match stage {
            ReadStage::Indexing(meta) => self.after_index(meta, seen),
            ReadStage::Segmenting(input, more) => self.after_segment(input, more, seen),
            _ => unreachable!(),
        }
    }
}

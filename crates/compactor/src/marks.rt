//! Blocks are marked where they have no mark. So each is looked at first: a second mark would be younger than the one
//! that stands, and the block would be deleted later than the first one promised.

ghost use Rattle.std.specs.Prelude.{◌≡◌, ◌+◌, ◌-◌, ◌*◌, ◌^◌, ◌<◌, ℕ, List, length, Option, Some, IsSomeAnd};
ghost use Rattle.ulid_core.specs.Limits.{ulid_time_limit};
ghost use Rattle.world_core.specs.Machines.{Falls};
ghost use Rattle.world_core.specs.Operations.{IsAnswer, entry_of};
ghost use Rattle.world_core.specs.Plans.{Runs};
ghost use Rattle.world_core.specs.declared.op.Op.{Op};
ghost use Rattle.world_core.specs.declared.entry.Entry.{Entry};
ghost use Rattle.world_core.specs.Leads.{after_entry, LeadsBy};
ghost use Rattle.compactor.specs.MarkCounts.{held};
ghost use Rattle.compactor.specs.declared.marks.MarksEnd.{MarksEnd};

use crate::new_mark::new_mark;
use crate::reason::Reason;
use base::NoMemory;
use block_keys::Key;
use moment_core::Moment;
use std::alloc::Global;
use std::collections::VecDeque;
use ulid_core::Ulid;
use world_core::{Act, Machine, Op, Reply, Seen};

/// How a marking of blocks ended.
#[derive(Clone, Copy)]
pub enum MarksEnd {
    /// So many marks were put.
    Done(u64),
    /// The entry of this number was answered that the call failed.
    Fault(u64),
}

/// How far a marking has come.
#[derive(Clone, Copy)]
pub(crate) enum MarkStage {
    /// It was not begun.
    Fresh,
    /// It waits for the mark of the block.
    Looking(Ulid),
    /// It waits for the put of the mark of the block, which had none at that moment.
    Putting(Ulid, Moment),
}

/// The marking of blocks: of each a look at its mark, and where it has none the put of one.
#[derive(Drop)]
pub struct Marks {
    alloc: Global,
    reason: Reason,
    stage: MarkStage,
    /// The blocks that are still to be looked at.
    waiting: VecDeque<Ulid>,
    /// How many marks were put.
    put: u64,
    ghost counted: { put + held stage + length waiting.items < 2 ^ 64 },
}

impl Marks {
    ghost use Rattle.compactor.specs.Marking.{marks_of};
    ghost use Rattle.compactor.specs.MarkStates.{left_at, left_of, asked_mark, count_of};

    /// Begins the marking of these blocks.
    pub fn start(alloc: Global, reason: Reason, ulids: VecDeque<Ulid>) -> Marks
        ensures begun { ⟦<Marks as Machine>⟧.fresh result }
        ensures run { (entries : List Entry) (end : Option MarksEnd) (last : Marks)
            → ⟦<Marks as Machine>⟧.may result entries end last
            → Runs (marks_of reason 0 ulids.items) entries end }
    {
        Marks {
            alloc,
            reason,
            stage: MarkStage::Fresh,
            waiting: ulids,
            put: 0,
        }
    }

    /// Asks for the mark of the next block, or ends where there is none.
    fn look_next(&mut self) -> Result<Act<MarksEnd>, NoMemory>
        ensures leads { LeadsBy left_of asked_mark
            (marks_of self.old.reason self.old.put self.old.waiting.items) result self.new }
        ensures falls { Falls (2 * length self.old.waiting.items + 1) result (count_of self.new) }
    {
        match self.waiting.pop_front() {
            Some(ulid) => {
                self.stage = MarkStage::Looking(ulid);
                Ok(Act::Do(Op::Get(Key::Mark(ulid))))
            }
            None => Ok(Act::Done(MarksEnd::Done(self.put))),
        }
    }

    /// Goes on after the look at the mark of a block.
    fn after_look(&mut self, ulid: Ulid, seen: Seen) -> Result<Act<MarksEnd>, NoMemory>
        requires stage { self.old.stage ≡ MarkStage.Looking ulid }
        requires answer { IsSomeAnd (asked_mark self.old) (λ op. IsAnswer op seen) }
        ensures leads { (seat : ℕ) (op : Op) → LeadsBy left_of asked_mark
            (after_entry (left_at (MarkStage.Looking ulid) self.old.reason self.old.put
            self.old.waiting.items) (entry_of seat op seen)) result self.new }
        ensures falls { Falls (2 * length self.old.waiting.items + 2) result (count_of self.new) }
    {
        let Seen { seq, moment, reply } = seen;
        match reply {
            Reply::Found(_) => self.look_next(),
            Reply::Absent => self.put_mark(ulid, moment),
            Reply::Failed(_) => Ok(Act::Done(MarksEnd::Fault(seq))),
            _ => unreachable!(),
        }
    }

    /// Asks for the put of the mark of a block that had none at a moment.
    fn put_mark(&mut self, ulid: Ulid, looked: Moment) -> Result<Act<MarksEnd>, NoMemory>
        requires stage { self.old.stage ≡ MarkStage.Looking ulid }
        requires moment { looked.ms < ulid_time_limit }
        ensures leads { LeadsBy left_of asked_mark (left_at (MarkStage.Putting ulid looked)
            self.old.reason self.old.put self.old.waiting.items) result self.new }
        ensures falls { Falls (2 * length self.old.waiting.items + 2) result (count_of self.new) }
    {
        let text = new_mark(self.alloc, ulid, looked, self.reason.details())?;
        self.stage = MarkStage::Putting(ulid, looked);
        Ok(Act::Do(Op::Put(Key::Mark(ulid), text)))
    }

    /// Goes on after the put of the mark of a block that had none at a moment.
    fn after_put(
        &mut self,
        ulid: Ulid,
        looked: Moment,
        seen: Seen,
    ) -> Result<Act<MarksEnd>, NoMemory>
        requires stage { self.old.stage ≡ MarkStage.Putting ulid looked }
        requires answer { IsSomeAnd (asked_mark self.old) (λ op. IsAnswer op seen) }
        ensures leads { (seat : ℕ) (op : Op) → LeadsBy left_of asked_mark
            (after_entry (left_at (MarkStage.Putting ulid looked) self.old.reason self.old.put
            self.old.waiting.items) (entry_of seat op seen)) result self.new }
        ensures falls { Falls (2 * length self.old.waiting.items + 1) result (count_of self.new) }
    {
        match seen.reply {
            Reply::Stored => {
                self.put = self.put.saturating_add(1);
                self.stage = MarkStage::Fresh;
                self.look_next()
            }
            Reply::Failed(_) => Ok(Act::Done(MarksEnd::Fault(seen.seq))),
            _ => unreachable!(),
        }
    }
}

impl Machine for Marks {
    type End = MarksEnd;

    ghost use Rattle.world_core.specs.Leads.{does};
    ghost use Rattle.compactor.specs.MarkStates.{left_of, asked_mark, count_of};
    ghost use Rattle.compactor.specs.declared.marks.MarkStage.TheVariants.{Fresh};

    ghost may = { does left_of };

    ghost asked = { asked_mark };

    ghost measure = { count_of };

    ghost fresh = { λ marks. marks.stage ≡ Fresh };

    fn first(&mut self) -> Result<Act<MarksEnd>, NoMemory> {
        self.look_next()
    }

    fn step(&mut self, seen: Seen) -> Result<Act<MarksEnd>, NoMemory> {
        let stage = self.stage;
        match stage {
            MarkStage::Fresh => unreachable!(),
            MarkStage::Looking(ulid) => self.after_look(ulid, seen),
            MarkStage::Putting(ulid, looked) => self.after_put(ulid, looked, seen),
        }
    }
}

//! The machine of a cleaning, the one activity that deletes. Of a block the meta goes first, so that no later sync
//! finds it, and the mark goes last, so that the next cleaning takes up what an interrupted one has left.

ghost use Rattle.std.specs.Prelude.{◌≡◌, ◌+◌, ◌-◌, ◌*◌, ◌≤◌, ℕ, List, [], ◌∷◌, ◌++◌, length, Option, Some, IfOk, IsTrue, IsSomeAnd};
ghost use Rattle.world_core.specs.Machines.{GoesOn, Falls};
ghost use Rattle.world_core.specs.Operations.{IsAnswer, entry_of};
ghost use Rattle.world_core.specs.declared.op.Op.{Op};
ghost use Rattle.world_core.specs.declared.entry.Entry.{Entry};
ghost use Rattle.block_keys.specs.declared.key.Key.TheVariants as key;
ghost use Rattle.cleaner.specs.Objects.{have_lawful_keys};
ghost use Rattle.cleaner.specs.Cleanings.{CleanRun, deleting, deletion};
ghost use Rattle.cleaner.specs.declared.clean.CleanEnd.{CleanEnd};

use crate::ages::{is_old_block, is_old_mark};
use crate::clean_rules::{CleanRules, rules_of};
use crate::objects::{add_data_keys, first_of};
use crate::walk::{Page, Walk};
use base::NoMemory;
use block_keys::Key;
use block_meta::mark_of;
use label_sets::Text;
use moment_core::Rules;
use std::alloc::Global;
use std::collections::VecDeque;
use ulid_core::Ulid;
use world_core::{Act, Machine, Op, Reply, Seen, add_ulids};

/// How a cleaning ended.
#[derive(Clone, Copy, Debug, PartialEq, Eq)]
pub enum CleanEnd {
    /// All blocks that were listed were looked at, and so many blocks and partials of them were deleted.
    Done { blocks: u64, partials: u64 },
    /// The entry of this number was answered that the call failed.
    Fault(u64),
    /// The names of the page, or the bytes of the mark, at the entry of this number are not as they may be.
    Damaged(u64),
    /// The bucket, or one block, has a million names and more.
    TooMany,
}

/// How far a cleaning has come.
#[derive(Clone, Copy)]
pub(crate) enum Stage {
    /// It was not begun.
    Fresh,
    /// It waits for a page of the names of blocks.
    Listing,
    /// It waits for the mark of the block.
    Marking(Ulid),
    /// It waits for the meta of the block, which has no mark.
    Reading(Ulid),
    /// It waits for a page of the names of the block, which is to be deleted.
    Walking(Ulid),
    /// It waits for the delete of the block's first object.
    Deleting,
}

/// A cleaning: the pages of the bucket's names up to the first short one, then of each block its mark, and where there is none its
/// meta. Of a block that is to be deleted the pages of its names, and then the deletes of its objects.
#[derive(Drop)]
pub struct Clean {
    alloc: Global,
    rules: CleanRules,
    stage: Stage,
    /// The walk that it is at, of all blocks' names or of one block's.
    walk: Walk,
    /// The blocks that are still to be looked at, ascending.
    waiting: VecDeque<Ulid>,
    /// The objects of one block that are still to be deleted, in that order.
    doomed: VecDeque<Key>,
    /// How many blocks and partials were deleted, the one at hand among them.
    blocks: u64,
    partials: u64,
    ghost limit: { 1 ≤ rules.page_limit },
    ghost keys: { IsTrue (have_lawful_keys doomed.items) },
}

impl Clean {
    ghost use Rattle.cleaner.specs.CleanStates.{asked_clean, may_at, goes_after, blocks_left, goes_by_blocks, goes_by_objects, goes_to, Leads, most_asked, count_at, count_of};

    /// Begins a cleaning. It takes no memory today.
    pub fn start(alloc: Global, rules: &Rules) -> Result<Clean, NoMemory>
        requires { 1 ≤ rules.now.page_limit }
        ensures begun { IfOk result ⟦<Clean as Machine>⟧.fresh }
        ensures run { IfOk result
            (λ clean. (entries : List Entry) (end : Option CleanEnd) (last : Clean)
            → ⟦<Clean as Machine>⟧.may clean entries end last → CleanRun rules.now entries end) }
    {
        Ok(Clean {
            alloc,
            rules: rules_of(rules),
            stage: Stage::Fresh,
            walk: Walk::new(),
            waiting: VecDeque::new(alloc),
            doomed: VecDeque::new(alloc),
            blocks: 0,
            partials: 0,
        })
    }

    /// Asks for the next page of the names of blocks.
    fn ask_blocks(&mut self) -> Result<Act<CleanEnd>, NoMemory>
        ensures leads { Leads (may_at Stage.Listing self.old) result self.new }
        ensures falls { Falls (count_at Stage.Listing self.old + 1) result (count_of self.new) }
    {
        let after = self.walk.cursor(self.alloc)?;
        self.stage = Stage::Listing;
        Ok(Act::Do(Op::RootPage(after, self.rules.page_limit)))
    }

    /// Goes on after a page of the names of blocks.
    fn after_blocks(&mut self, seen: Seen) -> Result<Act<CleanEnd>, NoMemory>
        requires stage { self.old.stage ≡ Stage.Listing }
        requires answer { IsSomeAnd (asked_clean self.old) (λ op. IsAnswer op seen) }
        ensures leads { (seat : ℕ) (op : Op)
            → Leads (goes_after Stage.Listing self.old (entry_of seat op seen)) result self.new }
        ensures falls { Falls (count_at Stage.Listing self.old) result (count_of self.new) }
    {
        let Seen {
            seq,
            moment: _,
            reply,
        } = seen;
        match reply {
            Reply::Names(names) => self.take_blocks(seq, names.members()),
            Reply::Failed(_) => Ok(Act::Done(CleanEnd::Fault(seq))),
            _ => unreachable!(),
        }
    }

    /// Goes on with a page of the names of blocks.
    fn take_blocks(&mut self, seq: u64, names: &[Text]) -> Result<Act<CleanEnd>, NoMemory>
        ensures leads { Leads (goes_by_blocks seq self.old names.now) result self.new }
        ensures falls { Falls (count_at Stage.Listing self.old) result (count_of self.new) }
    {
        let page = self.walk.take(names, self.rules.page_limit)?;
        match page {
            Page::Unordered => Ok(Act::Done(CleanEnd::Damaged(seq))),
            Page::TooMany => Ok(Act::Done(CleanEnd::TooMany)),
            Page::Full => {
                add_ulids(&mut self.waiting, names)?;
                self.ask_blocks()
            }
            Page::Last => {
                add_ulids(&mut self.waiting, names)?;
                self.look_next()
            }
        }
    }

    /// Asks for the mark of the next block, or ends where there is none.
    fn look_next(&mut self) -> Result<Act<CleanEnd>, NoMemory>
        ensures leads { Leads (goes_to self.old (blocks_left self.old)) result self.new }
        ensures falls { Falls (most_asked * length self.old.waiting.items + 1) result
            (count_of self.new) }
    {
        match self.waiting.pop_front() {
            Some(ulid) => {
                self.stage = Stage::Marking(ulid);
                Ok(Act::Do(Op::Get(Key::Mark(ulid))))
            }
            None => Ok(Act::Done(CleanEnd::Done {
                blocks: self.blocks,
                partials: self.partials,
            })),
        }
    }

    /// Goes on after the read of the mark of a block.
    fn after_mark(&mut self, ulid: Ulid, seen: Seen) -> Result<Act<CleanEnd>, NoMemory>
        requires stage { self.old.stage ≡ Stage.Marking ulid }
        requires answer { IsSomeAnd (asked_clean self.old) (λ op. IsAnswer op seen) }
        ensures leads { (seat : ℕ) (op : Op)
            → Leads (goes_after (Stage.Marking ulid) self.old (entry_of seat op seen)) result
            self.new }
        ensures falls { Falls (count_at (Stage.Marking ulid) self.old) result (count_of self.new) }
    {
        let Seen { seq, moment, reply } = seen;
        match reply {
            Reply::Found(bytes) => match mark_of(self.alloc, ulid, bytes.bytes())? {
                Some(mark) => if is_old_mark(&mark, moment, self.rules.delete) {
                    self.blocks = self.blocks.saturating_add(1);
                    self.delete_block(ulid)
                } else {
                    self.look_next()
                },
                None => Ok(Act::Done(CleanEnd::Damaged(seq))),
            },
            Reply::Absent => self.ask_meta(ulid),
            Reply::Failed(_) => Ok(Act::Done(CleanEnd::Fault(seq))),
            _ => unreachable!(),
        }
    }

    /// Asks for the meta of a block that has no mark.
    fn ask_meta(&mut self, ulid: Ulid) -> Result<Act<CleanEnd>, NoMemory>
        ensures leads { Leads (may_at (Stage.Reading ulid) self.old) result self.new }
        ensures falls { Falls (count_at (Stage.Marking ulid) self.old) result (count_of self.new) }
    {
        self.stage = Stage::Reading(ulid);
        Ok(Act::Do(Op::Get(Key::Meta(ulid))))
    }

    /// Goes on after the read of the meta of a block that has no mark.
    fn after_meta(&mut self, ulid: Ulid, seen: Seen) -> Result<Act<CleanEnd>, NoMemory>
        requires stage { self.old.stage ≡ Stage.Reading ulid }
        requires answer { IsSomeAnd (asked_clean self.old) (λ op. IsAnswer op seen) }
        ensures leads { (seat : ℕ) (op : Op)
            → Leads (goes_after (Stage.Reading ulid) self.old (entry_of seat op seen)) result
            self.new }
        ensures falls { Falls (count_at (Stage.Reading ulid) self.old) result (count_of self.new) }
    {
        match seen.reply {
            Reply::Found(_) => self.look_next(),
            Reply::Absent => if is_old_block(ulid, seen.moment, self.rules.partial) {
                self.partials = self.partials.saturating_add(1);
                self.delete_block(ulid)
            } else {
                self.look_next()
            },
            Reply::Failed(_) => Ok(Act::Done(CleanEnd::Fault(seen.seq))),
            _ => unreachable!(),
        }
    }

    /// Begins the deletion of a block.
    fn delete_block(&mut self, ulid: Ulid) -> Result<Act<CleanEnd>, NoMemory>
        ensures leads { Leads
            (goes_to self.old (deletion self.old.rules ulid (blocks_left self.old))) result
            self.new }
        ensures falls { Falls (count_at (Stage.Reading ulid) self.old) result (count_of self.new) }
    {
        self.walk = Walk::new();
        self.doomed = VecDeque::new(self.alloc);
        self.ask_objects(ulid)
    }

    /// Asks for the next page of the names of a block.
    fn ask_objects(&mut self, ulid: Ulid) -> Result<Act<CleanEnd>, NoMemory>
        ensures leads { Leads (may_at (Stage.Walking ulid) self.old) result self.new }
        ensures falls { Falls (count_at (Stage.Walking ulid) self.old + 1) result
            (count_of self.new) }
    {
        let after = self.walk.cursor(self.alloc)?;
        self.stage = Stage::Walking(ulid);
        Ok(Act::Do(Op::BlockPage(ulid, after, self.rules.page_limit)))
    }

    /// Goes on after a page of the names of a block.
    fn after_objects(&mut self, ulid: Ulid, seen: Seen) -> Result<Act<CleanEnd>, NoMemory>
        requires stage { self.old.stage ≡ Stage.Walking ulid }
        requires answer { IsSomeAnd (asked_clean self.old) (λ op. IsAnswer op seen) }
        ensures leads { (seat : ℕ) (op : Op)
            → Leads (goes_after (Stage.Walking ulid) self.old (entry_of seat op seen)) result
            self.new }
        ensures falls { Falls (count_at (Stage.Walking ulid) self.old) result (count_of self.new) }
    {
        let Seen {
            seq,
            moment: _,
            reply,
        } = seen;
        match reply {
            Reply::Names(names) => self.take_objects(ulid, seq, names.members()),
            Reply::Failed(_) => Ok(Act::Done(CleanEnd::Fault(seq))),
            _ => unreachable!(),
        }
    }

    /// Goes on with a page of the names of a block.
    fn take_objects(
        &mut self,
        ulid: Ulid,
        seq: u64,
        names: &[Text],
    ) -> Result<Act<CleanEnd>, NoMemory>
        ensures leads { Leads (goes_by_objects seq ulid self.old names.now) result self.new }
        ensures falls { Falls (count_at (Stage.Walking ulid) self.old) result (count_of self.new) }
    {
        let page = self.walk.take(names, self.rules.page_limit)?;
        match page {
            Page::Unordered => Ok(Act::Done(CleanEnd::Damaged(seq))),
            Page::TooMany => Ok(Act::Done(CleanEnd::TooMany)),
            Page::Full => {
                add_data_keys(self.alloc, ulid, &mut self.doomed, names)?;
                self.ask_objects(ulid)
            }
            Page::Last => {
                add_data_keys(self.alloc, ulid, &mut self.doomed, names)?;
                self.delete_objects(ulid)
            }
        }
    }

    /// Begins the deletes of a block's objects: its meta, its segments and its index, and last its mark.
    fn delete_objects(&mut self, ulid: Ulid) -> Result<Act<CleanEnd>, NoMemory>
        ensures leads { Leads (goes_to self.old
            (deleting (key.Meta ulid ∷ self.old.doomed.items ++ key.Mark ulid ∷ [])
            (blocks_left self.old))) result self.new }
        ensures falls { Falls (most_asked * length self.old.waiting.items
            + length self.old.doomed.items + 4) result (count_of self.new) }
    {
        self.doomed.push_front(Key::Meta(ulid))?;
        self.doomed.push_back(Key::Mark(ulid))?;
        self.delete_next()
    }

    /// Goes on after the delete of an object.
    fn after_delete(&mut self, seen: Seen) -> Result<Act<CleanEnd>, NoMemory>
        requires stage { self.old.stage ≡ Stage.Deleting }
        requires answer { IsSomeAnd (asked_clean self.old) (λ op. IsAnswer op seen) }
        ensures leads { (seat : ℕ) (op : Op)
            → Leads (goes_after Stage.Deleting self.old (entry_of seat op seen)) result self.new }
        ensures falls { Falls (count_at Stage.Deleting self.old) result (count_of self.new) }
    {
        match seen.reply {
            Reply::Deleted => {
                let _object = self.doomed.pop_front();
                self.delete_next()
            }
            Reply::Failed(_) => Ok(Act::Done(CleanEnd::Fault(seen.seq))),
            _ => unreachable!(),
        }
    }

    /// Asks for the delete of the next object, or goes on to the next block where there is none.
    fn delete_next(&mut self) -> Result<Act<CleanEnd>, NoMemory>
        ensures leads { Leads
            (goes_to self.old (deleting self.old.doomed.items (blocks_left self.old))) result
            self.new }
        ensures falls { Falls
            (most_asked * length self.old.waiting.items + length self.old.doomed.items + 2)
            result (count_of self.new) }
    {
        match first_of(&self.doomed) {
            Some(object) => {
                self.stage = Stage::Deleting;
                Ok(Act::Do(Op::Delete(object)))
            }
            None => self.look_next(),
        }
    }
}

impl Machine for Clean {
    type End = CleanEnd;

    ghost use Rattle.cleaner.specs.CleanStates.{may_clean, asked_clean, count_of};
    ghost use Rattle.cleaner.specs.declared.clean.Stage.TheVariants.{Fresh};

    ghost may = { may_clean };

    ghost asked = { asked_clean };

    ghost measure = { count_of };

    ghost fresh = { λ clean. clean.stage ≡ Fresh };

    fn first(&mut self) -> Result<Act<CleanEnd>, NoMemory> {
        self.ask_blocks()
    }

    fn step(&mut self, seen: Seen) -> Result<Act<CleanEnd>, NoMemory> {
        let stage = self.stage;
        match stage {
            Stage::Fresh => unreachable!(),
            Stage::Listing => self.after_blocks(seen),
            Stage::Marking(ulid) => self.after_mark(ulid, seen),
            Stage::Reading(ulid) => self.after_meta(ulid, seen),
            Stage::Walking(ulid) => self.after_objects(ulid, seen),
            Stage::Deleting => self.after_delete(seen),
        }
    }
}

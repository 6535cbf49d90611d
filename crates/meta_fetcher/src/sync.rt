//! The machine of a sync, which gives a gateway its view (Thanos: meta fetcher). The mark of a block is read before its
//! meta: as cleanings delete the meta first, no block is taken for unmarked of which a cleaning has just deleted the
//! mark.

ghost use Rattle.std.specs.Prelude.{◌≡◌, ◌+◌, ◌*◌, ◌≤◌, ℕ, List, [], length, map, Option, Some, IfOk, IsSomeAnd};
ghost use Rattle.std.specs.List.Sorted.{IsStrictlyIncreasing};
ghost use Rattle.world_core.specs.Machines.{GoesOn, Falls};
ghost use Rattle.world_core.specs.Operations.{IsAnswer, entry_of};
ghost use Rattle.world_core.specs.declared.op.Op.{Op};
ghost use Rattle.world_core.specs.declared.entry.Entry.{Entry};
ghost use Rattle.meta_fetcher.specs.declared.sync.SyncEnd.{SyncEnd};
ghost use Rattle.meta_fetcher.specs.Syncs.{SyncRun};

use crate::filters::passed_blocks;
use crate::{SyncRules, View};
use base::{NoMemory, TryCopy};
use block_keys::Key;
use block_meta::{DeletionMark, mark_of, meta_of};
use label_sets::{Text, TextList};
use moment_core::Moment;
use std::alloc::Global;
use std::collections::VecDeque;
use std::mem;
use sync_filters::{Found, uncovered};
use ulid_core::Ulid;
use world_core::{
    Act, MOST_LISTED, Machine, Op, Reply, Seen, add_ulids, ascends, is_short, last_name,
};

/// How a sync ended.
#[derive(Drop)]
pub enum SyncEnd {
    View(View),
    /// The entry of this number was answered that the call failed.
    Fault(u64),
    /// The names of the page, or the bytes of the mark or the meta, at the entry of this number are not as they may be.
    Damaged(u64),
    /// The bucket has a million names and more.
    TooMany,
}

/// How far a sync has come.
#[derive(Clone, Copy, Debug, PartialEq, Eq)]
pub(crate) enum Stage {
    /// It was not begun.
    Fresh,
    /// It waits for the first page of names.
    Opening,
    /// It waits for the page after the last name.
    Listing,
    /// It waits for the mark of the block.
    Marking(Ulid),
    /// It waits for the meta of the block.
    Reading(Ulid),
}

/// A sync: the pages of the bucket's names up to the first short one, and then of each block its mark and its meta.
#[derive(Drop)]
pub struct Sync {
    alloc: Global,
    rules: SyncRules,
    stage: Stage,
    /// The number and the moment of the first entry, once it was made.
    first: u64,
    begin: Moment,
    /// The moment of the last entry.
    last: Moment,
    /// The last name that was listed.
    after: Text,
    /// How many names were listed.
    listed: u64,
    /// The blocks that are still to be read, ascending.
    waiting: VecDeque<Ulid>,
    found: Vec<Found>,
    /// The mark of the block whose meta is waited for.
    mark: Option<DeletionMark>,
    ghost limit: { 1 ≤ rules.page_limit },
}

impl Sync {
    ghost use Rattle.meta_fetcher.specs.Sightings.{IsView, sighting_of};
    ghost use Rattle.meta_fetcher.specs.SyncStates.{asked_sync, count_at, count_of, Goes, Leads, course_of, blocks_left, meta_left, goes_by_names, goes_after};

    /// A sync by these rules, which has asked for nothing yet.
    pub fn start(alloc: Global, rules: SyncRules) -> Result<Sync, NoMemory>
        requires { 1 ≤ rules.page_limit }
        ensures begun { IfOk result ⟦<Sync as Machine>⟧.fresh }
        ensures run { IfOk result
            (λ sync. (entries : List Entry) (end : Option SyncEnd) (last : Sync)
            → ⟦<Sync as Machine>⟧.may sync entries end last → SyncRun rules entries end) }
    {
        let none = Moment { ms: 0 };
        Ok(Sync {
            alloc,
            rules,
            stage: Stage::Fresh,
            first: 0,
            begin: none,
            last: none,
            after: Text::from_str(alloc, "")?,
            listed: 0,
            waiting: VecDeque::new(alloc),
            found: Vec::new(alloc),
            mark: None,
        })
    }

    /// Goes on after the first page of names.
    fn after_first_page(&mut self, seen: Seen) -> Result<Act<SyncEnd>, NoMemory>
        requires stage { self.old.stage ≡ Stage.Opening }
        requires answer { IsSomeAnd (asked_sync self.old) (λ op. IsAnswer op seen) }
        ensures leads { (seat : ℕ) (op : Op)
            → Leads (goes_after Stage.Opening self.old (entry_of seat op seen)) result self.new }
        ensures falls { Falls (count_at Stage.Opening self.old) result (count_of self.new) }
    {
        let Seen { seq, moment, reply } = seen;
        self.first = seq;
        self.begin = moment;
        self.last = moment;
        match reply {
            Reply::Names(names) => if ascends(None, names.members()) {
                self.take_names(&names)
            } else {
                Ok(Act::Done(SyncEnd::Damaged(seq)))
            },
            Reply::Failed(_) => Ok(Act::Done(SyncEnd::Fault(seq))),
            _ => unreachable!(),
        }
    }

    /// Goes on after a further page of names.
    fn after_next_page(&mut self, seen: Seen) -> Result<Act<SyncEnd>, NoMemory>
        requires stage { self.old.stage ≡ Stage.Listing }
        requires answer { IsSomeAnd (asked_sync self.old) (λ op. IsAnswer op seen) }
        ensures leads { (seat : ℕ) (op : Op)
            → Leads (goes_after Stage.Listing self.old (entry_of seat op seen)) result self.new }
        ensures falls { Falls (count_at Stage.Listing self.old) result (count_of self.new) }
    {
        let Seen { seq, moment, reply } = seen;
        self.last = moment;
        match reply {
            Reply::Names(names) => if ascends(Some(&self.after), names.members()) {
                self.take_names(&names)
            } else {
                Ok(Act::Done(SyncEnd::Damaged(seq)))
            },
            Reply::Failed(_) => Ok(Act::Done(SyncEnd::Fault(seq))),
            _ => unreachable!(),
        }
    }

    /// Goes on with the names of a page, which ascend.
    fn take_names(&mut self, names: &TextList) -> Result<Act<SyncEnd>, NoMemory>
        ensures leads { Leads (goes_by_names self.old names.now) result self.new }
        ensures falls { Falls (count_at Stage.Listing self.old) result (count_of self.new) }
    {
        add_ulids(&mut self.waiting, names.members())?;
        if is_short(names.len(), self.rules.page_limit) {
            return self.read_next();
        }
        self.listed = self.listed.saturating_add(names.len() as u64);
        if self.listed >= MOST_LISTED {
            return Ok(Act::Done(SyncEnd::TooMany));
        }
        self.after = last_name(names.members())?;
        self.stage = Stage::Listing;
        Ok(Act::Do(Op::RootPage(self.after.copy()?, self.rules.page_limit)))
    }

    /// Asks for the mark of the next block, or ends where there is none.
    fn read_next(&mut self) -> Result<Act<SyncEnd>, NoMemory>
        ensures leads { Leads
            (Goes self.old.rules (Some (course_of self.old)) (blocks_left self.old)) result
            self.new }
        ensures falls { Falls (2 * length self.old.waiting.items + 1) result (count_of self.new) }
    {
        match self.waiting.pop_front() {
            Some(ulid) => {
                self.stage = Stage::Marking(ulid);
                Ok(Act::Do(Op::Get(Key::Mark(ulid))))
            }
            None => Ok(Act::Done(SyncEnd::View(self.take_view()?))),
        }
    }

    /// The view of what was found.
    fn take_view(&mut self) -> Result<View, NoMemory>
        ensures { IfOk result (λ view. IsStrictlyIncreasing
            (map (λ block. block.ulid) self.old.found.items)
            → IsView self.old.rules self.old.first self.old.begin self.old.last
            (map sighting_of self.old.found.items) view) }
    {
        let found = mem::replace(&mut self.found, Vec::new(self.alloc));
        let (kept, covered) = uncovered(self.alloc, passed_blocks(found, self.rules))?;
        Ok(View {
            first: self.first,
            begin: self.begin,
            end: self.last,
            kept,
            covered,
        })
    }

    /// Goes on after the read of the mark of a block.
    fn after_mark(&mut self, ulid: Ulid, seen: Seen) -> Result<Act<SyncEnd>, NoMemory>
        requires stage { self.old.stage ≡ Stage.Marking ulid }
        requires answer { IsSomeAnd (asked_sync self.old) (λ op. IsAnswer op seen) }
        ensures leads { (seat : ℕ) (op : Op)
            → Leads (goes_after (Stage.Marking ulid) self.old (entry_of seat op seen)) result
            self.new }
        ensures falls { Falls (count_at (Stage.Marking ulid) self.old) result (count_of self.new) }
    {
        let Seen { seq, moment, reply } = seen;
        self.last = moment;
        match reply {
            Reply::Found(bytes) => match mark_of(self.alloc, ulid, bytes.bytes())? {
                Some(mark) => self.ask_meta(ulid, Some(mark)),
                None => Ok(Act::Done(SyncEnd::Damaged(seq))),
            },
            Reply::Failed(_) => Ok(Act::Done(SyncEnd::Fault(seq))),
            Reply::Absent => self.ask_meta(ulid, None),
            _ => unreachable!(),
        }
    }

    /// Asks for the meta of a block whose mark was read.
    fn ask_meta(&mut self, ulid: Ulid, mark: Option<DeletionMark>) -> Result<Act<SyncEnd>, NoMemory>
        ensures leads { Leads (Goes self.old.rules (Some (course_of self.old))
            (meta_left ulid (record self.old { mark = mark }))) result self.new }
        ensures falls { Falls (2 * length self.old.waiting.items + 2) result (count_of self.new) }
    {
        self.mark = mark;
        self.stage = Stage::Reading(ulid);
        Ok(Act::Do(Op::Get(Key::Meta(ulid))))
    }

    /// Goes on after the read of the meta of a block.
    fn after_meta(&mut self, ulid: Ulid, seen: Seen) -> Result<Act<SyncEnd>, NoMemory>
        requires stage { self.old.stage ≡ Stage.Reading ulid }
        requires answer { IsSomeAnd (asked_sync self.old) (λ op. IsAnswer op seen) }
        ensures leads { (seat : ℕ) (op : Op)
            → Leads (goes_after (Stage.Reading ulid) self.old (entry_of seat op seen)) result
            self.new }
        ensures falls { Falls (count_at (Stage.Reading ulid) self.old) result (count_of self.new) }
    {
        let Seen { seq, moment, reply } = seen;
        let mark_read = self.last;
        let mark = mem::replace(&mut self.mark, None);
        self.last = moment;
        match reply {
            Reply::Found(bytes) => match meta_of(self.alloc, ulid, bytes.bytes())? {
                Some(meta) => {
                    self.found.push(Found {
                        ulid,
                        mark,
                        mark_read,
                        meta,
                        meta_read: moment,
                    })?;
                    self.read_next()
                }
                None => Ok(Act::Done(SyncEnd::Damaged(seq))),
            },
            Reply::Failed(_) => Ok(Act::Done(SyncEnd::Fault(seq))),
            // a block without a meta gives nothing
            Reply::Absent => self.read_next(),
            _ => unreachable!(),
        }
    }
}

impl Machine for Sync {
    type End = SyncEnd;

    ghost use Rattle.meta_fetcher.specs.SyncStates.{may_sync, asked_sync, count_of};
    ghost use Rattle.meta_fetcher.specs.declared.sync.Stage.TheVariants.{Fresh};

    ghost may = { may_sync };

    ghost asked = { asked_sync };

    ghost measure = { count_of };

    ghost fresh = { λ sync. sync.stage ≡ Fresh };

    fn first(&mut self) -> Result<Act<SyncEnd>, NoMemory> {
        let cursor = Text::from_str(self.alloc, "")?;
        self.stage = Stage::Opening;
        Ok(Act::Do(Op::RootPage(cursor, self.rules.page_limit)))
    }

    fn step(&mut self, seen: Seen) -> Result<Act<SyncEnd>, NoMemory> {
        let stage = self.stage;
        match stage {
            Stage::Fresh => unreachable!(),
            Stage::Opening => self.after_first_page(seen),
            Stage::Listing => self.after_next_page(seen),
            Stage::Marking(ulid) => self.after_mark(ulid, seen),
            Stage::Reading(ulid) => self.after_meta(ulid, seen),
        }
    }
}

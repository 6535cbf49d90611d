//! The machine of a compaction. It drives machines of other activities, one at a time, and passes their operations on
//! as its own: the end of each decides which comes next, and one that fails ends the compaction.

ghost use Rattle.std.specs.Prelude.{◌≡◌, ◌+◌, ◌*◌, ◌<◌, ◌≤◌, ◌^◌, ℕ, List, [], ◌∷◌, length, Option, Some, IfOk, IsSomeAnd};
ghost use Rattle.world_core.specs.Machines.{Falls};
ghost use Rattle.world_core.specs.Operations.{IsAnswer, entry_of};
ghost use Rattle.world_core.specs.declared.op.Op.{Op};
ghost use Rattle.world_core.specs.declared.entry.Entry.{Entry};
ghost use Rattle.world_core.specs.Plans.{Runs};
ghost use Rattle.group_planner.specs.Members.{ulids_of};
ghost use Rattle.compactor.specs.Compactions.{after_sync as sync_led_to, after_merge, after_upload as upload_led_to, compacting, merging, rounds, CompactRun};
ghost use Rattle.compactor.specs.Jobs.{metas_of};
ghost use Rattle.compactor.specs.Reading.{FitsEnd, MayMerge};
ghost use Rattle.compactor.specs.declared.compact_end.CompactEnd.{CompactEnd};

use crate::new_block::new_ulid;
use crate::stage::Stage;
use crate::sync_rules::sync_rules;
use crate::{
    CompactEnd, Gathered, Job, Marks, MarksEnd, Merging, Reads, ReadsEnd, Reason, expired_ulids,
    found_ulids, merge_inputs, next_job,
};
use base::{NoMemory, TryCopy};
use block_meta::{BlockFiles, files_objects};
use group_planner::{Group, groups};
use label_sets::{LabelSet, TextList};
use meta_fetcher::{Sync, SyncEnd, View};
use moment_core::{Rules, Span};
use shipper::{Upload, UploadEnd};
use std::alloc::Global;
use std::collections::VecDeque;
use std::mem;
use ulid_core::Ulid;
use world_core::{Act, Machine, Seen};

/// A compaction: a sync, the marks of the covered blocks, then of each group with a plan the reads of its blocks, the upload of the
/// block that they become and their marks, and last the marks of the expired blocks.
#[derive(Drop)]
pub struct Compact {
    alloc: Global,
    replicas: TextList,
    /// How long blocks are kept, if not for ever.
    retention: Option<Span>,
    stage: Stage,
    /// The groups that are still to be looked at.
    groups: VecDeque<Group>,
    /// The blocks that had expired when the sync began.
    expired: VecDeque<Ulid>,
    /// How many covered blocks were marked.
    collected: u64,
    /// How many groups were compacted, the one at hand among them.
    compacted: u64,
    ghost counted: { compacted + length groups.items < 2 ^ 64 },
}

impl Compact {
    ghost use Rattle.compactor.specs.CompactStates.{may_at, goes_after, Begins, Goes, groups_left, marks_left, after_marks as marks_led_to, after_reads as reads_led_to, most_asked, level_of, count_at, count_of};

    /// Begins a compaction by these rules.
    pub fn start(alloc: Global, rules: &Rules) -> Result<Compact, NoMemory>
        requires { 1 ≤ rules.now.page_limit }
        ensures begun { IfOk result ⟦<Compact as Machine>⟧.fresh }
        ensures run { IfOk result
            (λ compact. (entries : List Entry) (end : Option CompactEnd) (last : Compact)
            → ⟦<Compact as Machine>⟧.may compact entries end last
            → CompactRun rules.now entries end) }
    {
        let replicas = rules.replicas.copy()?;
        let sync = Sync::start(alloc, sync_rules(rules))?;
        Ok(Compact {
            alloc,
            replicas,
            retention: rules.retention,
            stage: Stage::Syncing(sync),
            groups: VecDeque::new(alloc),
            expired: VecDeque::new(alloc),
            collected: 0,
            compacted: 0,
        })
    }

    /// Waits in this stage. The stage before it is let go here alone.
    fn wait_in(&mut self, stage: Stage)
        ensures { self.new ≡ record self.old { stage = stage } }
    {
        drop(mem::replace(&mut self.stage, stage));
    }

    /// Asks for the sync's first operation.
    fn first_sync(&mut self, mut sync: Sync) -> Result<Act<CompactEnd>, NoMemory>
        requires fresh { ⟦<Sync as Machine>⟧.fresh sync }
        ensures goes_on { Goes (may_at (Stage.Syncing sync) self.old) result self.new }
    {
        let act = sync.first()?;
        match act {
            Act::Do(op) => {
                self.wait_in(Stage::Syncing(sync));
                Ok(Act::Do(op))
            }
            Act::Done(end) => self.after_sync(end),
        }
    }

    /// Goes on after the reply to the sync's operation.
    fn step_sync(&mut self, mut sync: Sync, seen: Seen) -> Result<Act<CompactEnd>, NoMemory>
        requires answer { IsSomeAnd (⟦<Sync as Machine>⟧.asked sync) (λ op. IsAnswer op seen) }
        ensures goes_on { (seat : ℕ) (op : Op) → ⟦<Sync as Machine>⟧.asked sync ≡ Some op
            → Goes (goes_after (Stage.Syncing sync) self.old (entry_of seat op seen)) result
            self.new }
        ensures falls { Falls (count_at (Stage.Syncing sync) (length self.old.groups.items)) result
            (count_of self.new) }
    {
        let act = sync.step(seen)?;
        match act {
            Act::Do(op) => {
                self.wait_in(Stage::Syncing(sync));
                Ok(Act::Do(op))
            }
            Act::Done(end) => self.after_sync(end),
        }
    }

    /// Goes on after the sync.
    fn after_sync(&mut self, end: SyncEnd) -> Result<Act<CompactEnd>, NoMemory>
        ensures leads { Begins (sync_led_to self.old.replicas self.old.retention end) result
            self.new }
        ensures falls { Falls (most_asked * 2 ^ 70) result (count_of self.new) }
    {
        match end {
            SyncEnd::View(view) => self.take_view(view),
            SyncEnd::Fault(number) => Ok(Act::Done(CompactEnd::Fault(number))),
            SyncEnd::Damaged(number) => Ok(Act::Done(CompactEnd::Damaged(number))),
            SyncEnd::TooMany => Ok(Act::Done(CompactEnd::TooMany)),
        }
    }

    /// Goes on by what the sync saw.
    fn take_view(&mut self, view: View) -> Result<Act<CompactEnd>, NoMemory>
        ensures leads { Begins (rounds self.old.replicas self.old.retention view) result self.new }
        ensures falls { Falls (most_asked * 2 ^ 70) result (count_of self.new) }
    {
        let expired = expired_ulids(self.alloc, view.kept.members(), self.retention, view.begin)?;
        let found = groups(self.alloc, &view.kept, &self.replicas)?;
        let covered = found_ulids(self.alloc, view.covered.members())?;
        self.expired = expired;
        self.compacted = 0;
        self.groups = VecDeque::from_vec(found.into_vec());
        self.mark(Reason::Covered, covered)
    }

    /// Begins the marks of these blocks.
    fn mark(&mut self, reason: Reason, ulids: VecDeque<Ulid>) -> Result<Act<CompactEnd>, NoMemory>
        ensures leads { Begins (marks_left reason self.old ulids.items) result self.new }
        ensures falls { Falls
            (most_asked * (level_of reason (length self.old.groups.items) + 1)) result
            (count_of self.new) }
    {
        let mut marks = Marks::start(self.alloc, reason, ulids);
        let act = marks.first()?;
        match act {
            Act::Do(op) => {
                self.wait_in(Stage::Marking(reason, marks));
                Ok(Act::Do(op))
            }
            Act::Done(end) => self.after_marks(reason, end),
        }
    }

    /// Goes on after the reply to an operation of marks.
    fn step_marks(
        &mut self,
        reason: Reason,
        mut marks: Marks,
        seen: Seen,
    ) -> Result<Act<CompactEnd>, NoMemory>
        requires answer { IsSomeAnd (⟦<Marks as Machine>⟧.asked marks) (λ op. IsAnswer op seen) }
        ensures goes_on { (seat : ℕ) (op : Op) → ⟦<Marks as Machine>⟧.asked marks ≡ Some op
            → Goes (goes_after (Stage.Marking reason marks) self.old (entry_of seat op seen))
            result self.new }
        ensures falls { Falls
            (count_at (Stage.Marking reason marks) (length self.old.groups.items)) result
            (count_of self.new) }
    {
        let act = marks.step(seen)?;
        match act {
            Act::Do(op) => {
                self.wait_in(Stage::Marking(reason, marks));
                Ok(Act::Do(op))
            }
            Act::Done(end) => self.after_marks(reason, end),
        }
    }

    /// Goes on after marks that were put for this reason.
    fn after_marks(&mut self, reason: Reason, end: MarksEnd) -> Result<Act<CompactEnd>, NoMemory>
        ensures leads { Begins (marks_led_to reason self.old end) result self.new }
        ensures falls { Falls (most_asked * level_of reason (length self.old.groups.items)) result
            (count_of self.new) }
    {
        match reason {
            Reason::Covered => self.after_collect(end),
            Reason::Compacted => self.after_retire(end),
            Reason::Expired => Ok(Act::Done(self.last_end(end))),
        }
    }

    /// Goes on after the marks of the covered blocks.
    fn after_collect(&mut self, end: MarksEnd) -> Result<Act<CompactEnd>, NoMemory>
        ensures leads { Begins (marks_led_to Reason.Covered self.old end) result self.new }
        ensures falls { Falls (most_asked * (3 * length self.old.groups.items + 2)) result
            (count_of self.new) }
    {
        match end {
            MarksEnd::Done(put) => {
                self.collected = put;
                self.next_group()
            }
            MarksEnd::Fault(number) => Ok(Act::Done(CompactEnd::Fault(number))),
        }
    }

    /// Goes on to the next group with a plan, or to the expired blocks where there is none.
    fn next_group(&mut self) -> Result<Act<CompactEnd>, NoMemory>
        ensures leads { Begins (groups_left self.old) result self.new }
        ensures falls { Falls (most_asked * (3 * length self.old.groups.items + 2)) result
            (count_of self.new) }
    {
        match next_job(self.alloc, &mut self.groups)? {
            Some(job) => {
                self.compacted = self.compacted.saturating_add(1);
                self.read_group(job)
            }
            None => self.expire(),
        }
    }

    /// Begins the reads of a group's blocks.
    fn read_group(&mut self, job: Job) -> Result<Act<CompactEnd>, NoMemory>
        requires parents { job.parents.items ≡ ulids_of (metas_of job) }
        requires many { 1 ≤ length job.others.items }
        ensures leads { Begins (compacting self.old.replicas job.labels (groups_left self.old)
            (groups_left self.old) (metas_of job)) result self.new }
        ensures falls { Falls (most_asked * (3 * length self.old.groups.items + 5)) result
            (count_of self.new) }
    {
        let Job {
            labels,
            first,
            others,
            parents,
        } = job;
        let mut reads = Reads::start(self.alloc, first, others);
        let Ok(act) = reads.first() else {
            drop(reads);
            return Err(NoMemory);
        };
        match act {
            Act::Do(op) => {
                self.wait_in(Stage::Reading(reads, labels, parents));
                Ok(Act::Do(op))
            }
            Act::Done(end) => {
                drop(reads);
                self.after_reads(end, labels, parents)
            }
        }
    }

    /// Goes on after the reply to a read of a group's blocks.
    fn step_reads(
        &mut self,
        mut reads: Reads,
        labels: LabelSet,
        parents: VecDeque<Ulid>,
        seen: Seen,
    ) -> Result<Act<CompactEnd>, NoMemory>
        requires answer { IsSomeAnd (⟦<Reads as Machine>⟧.asked reads) (λ op. IsAnswer op seen) }
        ensures goes_on { (seat : ℕ) (op : Op) → ⟦<Reads as Machine>⟧.asked reads ≡ Some op
            → Goes (goes_after (Stage.Reading reads labels parents) self.old
            (entry_of seat op seen)) result self.new }
        ensures falls { Falls (count_at (Stage.Reading reads labels parents)
            (length self.old.groups.items)) result (count_of self.new) }
    {
        let Ok(act) = reads.step(seen) else {
            drop(reads);
            return Err(NoMemory);
        };
        match act {
            Act::Do(op) => {
                self.wait_in(Stage::Reading(reads, labels, parents));
                Ok(Act::Do(op))
            }
            Act::Done(end) => {
                drop(reads);
                self.after_reads(end, labels, parents)
            }
        }
    }

    /// Goes on after the reads of a group's blocks.
    fn after_reads(
        &mut self,
        end: ReadsEnd,
        labels: LabelSet,
        parents: VecDeque<Ulid>,
    ) -> Result<Act<CompactEnd>, NoMemory>
        requires fits { FitsEnd end }
        ensures leads { Begins (reads_led_to self.old labels parents.items end) result self.new }
        ensures falls { Falls (most_asked * (3 * length self.old.groups.items + 4)) result
            (count_of self.new) }
    {
        match end {
            ReadsEnd::Done(all) => self.merge(all, labels, parents),
            ReadsEnd::Fault(number) => Ok(Act::Done(CompactEnd::Fault(number))),
            ReadsEnd::Missing(number) => Ok(Act::Done(CompactEnd::Missing(number))),
            ReadsEnd::Damaged(number) => Ok(Act::Done(CompactEnd::Damaged(number))),
        }
    }

    /// Merges the blocks that were read.
    fn merge(
        &mut self,
        all: Gathered,
        labels: LabelSet,
        parents: VecDeque<Ulid>,
    ) -> Result<Act<CompactEnd>, NoMemory>
        requires may { MayMerge all }
        ensures leads { Begins (merging self.old.replicas labels parents.items
            (groups_left self.old) all.inputs all.number all.moment) result self.new }
        ensures falls { Falls (most_asked * (3 * length self.old.groups.items + 4)) result
            (count_of self.new) }
    {
        let Gathered {
            inputs,
            number,
            moment,
        } = all;
        let ulid = new_ulid(number, moment);
        let merging = merge_inputs(self.alloc, &self.replicas, &labels, ulid, inputs)?;
        match merging {
            Merging::Merged(block) => self.upload(ulid, block, parents),
            Merging::Refused(number) => Ok(Act::Done(CompactEnd::Damaged(number))),
            Merging::TooLarge => Ok(Act::Done(CompactEnd::TooLarge)),
        }
    }

    /// Begins the upload of a block that others were compacted into.
    fn upload(
        &mut self,
        ulid: Ulid,
        block: BlockFiles,
        parents: VecDeque<Ulid>,
    ) -> Result<Act<CompactEnd>, NoMemory>
        requires ulid { block.meta.ulid ≡ ulid }
        ensures leads { Begins (after_merge ulid parents.items (groups_left self.old)
            (Merging.Merged block)) result self.new }
        ensures falls { Falls (most_asked * (3 * length self.old.groups.items + 4)) result
            (count_of self.new) }
    {
        let objects = files_objects(self.alloc, block)?;
        let mut upload = Upload::start(objects)?;
        let act = upload.first()?;
        match act {
            Act::Do(op) => {
                self.wait_in(Stage::Uploading(upload, parents));
                Ok(Act::Do(op))
            }
            Act::Done(_) => unreachable!(),
        }
    }

    /// Goes on after the reply to an operation of an upload.
    fn step_upload(
        &mut self,
        mut upload: Upload,
        parents: VecDeque<Ulid>,
        seen: Seen,
    ) -> Result<Act<CompactEnd>, NoMemory>
        requires answer { IsSomeAnd (⟦<Upload as Machine>⟧.asked upload) (λ op. IsAnswer op seen) }
        ensures goes_on { (seat : ℕ) (op : Op) → ⟦<Upload as Machine>⟧.asked upload ≡ Some op
            → Goes (goes_after (Stage.Uploading upload parents) self.old (entry_of seat op seen))
            result self.new }
        ensures falls { Falls (count_at (Stage.Uploading upload parents)
            (length self.old.groups.items)) result (count_of self.new) }
    {
        let number = seen.seq;
        let act = upload.step(seen)?;
        match act {
            Act::Do(op) => {
                self.wait_in(Stage::Uploading(upload, parents));
                Ok(Act::Do(op))
            }
            Act::Done(end) => self.after_upload(end, number, parents),
        }
    }

    /// Goes on after an upload, the last entry of which has this number.
    fn after_upload(
        &mut self,
        end: UploadEnd,
        number: u64,
        parents: VecDeque<Ulid>,
    ) -> Result<Act<CompactEnd>, NoMemory>
        ensures leads { Begins (upload_led_to (marks_left Reason.Compacted self.old parents.items)
            (end, Some number)) result self.new }
        ensures falls { Falls (most_asked * (3 * length self.old.groups.items + 3)) result
            (count_of self.new) }
    {
        match end {
            UploadEnd::Done(_) => self.mark(Reason::Compacted, parents),
            // A new block is nowhere before it is uploaded.
            UploadEnd::Already => Ok(Act::Done(CompactEnd::Damaged(number))),
            UploadEnd::Fault(failed) => Ok(Act::Done(CompactEnd::Fault(failed))),
        }
    }

    /// Goes on after the marks of the blocks that were compacted.
    fn after_retire(&mut self, end: MarksEnd) -> Result<Act<CompactEnd>, NoMemory>
        ensures leads { Begins (marks_led_to Reason.Compacted self.old end) result self.new }
        ensures falls { Falls (most_asked * (3 * length self.old.groups.items + 2)) result
            (count_of self.new) }
    {
        match end {
            MarksEnd::Done(_) => self.next_group(),
            MarksEnd::Fault(number) => Ok(Act::Done(CompactEnd::Fault(number))),
        }
    }

    /// Begins the marks of the expired blocks.
    fn expire(&mut self) -> Result<Act<CompactEnd>, NoMemory>
        ensures leads { Begins (marks_left Reason.Expired self.old self.old.expired.items) result
            self.new }
        ensures falls { Falls (most_asked * 2) result (count_of self.new) }
    {
        let expired = mem::replace(&mut self.expired, VecDeque::new(self.alloc));
        let mut marks = Marks::start(self.alloc, Reason::Expired, expired);
        let act = marks.first()?;
        match act {
            Act::Do(op) => {
                self.wait_in(Stage::Marking(Reason::Expired, marks));
                Ok(Act::Do(op))
            }
            Act::Done(end) => Ok(Act::Done(self.last_end(end))),
        }
    }

    /// The end of a compaction, by that of the marks of expired blocks.
    fn last_end(&self, end: MarksEnd) -> CompactEnd
        ensures { Runs (marks_led_to Reason.Expired self.now end) [] (Some result) }
    {
        match end {
            MarksEnd::Done(expired) => CompactEnd::Done {
                collected: self.collected,
                compacted: self.compacted,
                expired,
            },
            MarksEnd::Fault(number) => CompactEnd::Fault(number),
        }
    }
}

impl Machine for Compact {
    type End = CompactEnd;

    ghost use Rattle.compactor.specs.CompactStates.{IsFresh, may_compact, asked_compact, count_of};

    ghost may = { may_compact };

    ghost asked = { asked_compact };

    ghost measure = { count_of };

    ghost fresh = { IsFresh };

    fn first(&mut self) -> Result<Act<CompactEnd>, NoMemory> {
        let stage = mem::replace(&mut self.stage, Stage::Over);
        match stage {
            Stage::Syncing(sync) => self.first_sync(sync),
            _ => unreachable!(),
        }
    }

    fn step(&mut self, seen: Seen) -> Result<Act<CompactEnd>, NoMemory> {
        let stage = mem::replace(&mut self.stage, Stage::Over);
        match stage {
            Stage::Syncing(sync) => self.step_sync(sync, seen),
            Stage::Reading(reads, labels, parents) => self.step_reads(reads, labels, parents, seen),
            Stage::Uploading(upload, parents) => self.step_upload(upload, parents, seen),
            Stage::Marking(reason, marks) => self.step_marks(reason, marks, seen),
            Stage::Over => unreachable!(),
        }
    }
}

//! A bucket with its journal and its clock: an operation is done, dated and told in one step. Only an empty bucket is
//! opened, so that all that ever stands in it was put by an entry.

ghost use Rattle.std.specs.Prelude.{◌≡◌, false, ◌↔◌, ℕ, ◌+◌, ◌≤◌, ◌<◌, IsTrue, [], ◌∷◌, ◌++◌, length, ◌≢◌, List, Some, slice_get, IfOk, IfErr, MatchResult, IfSome, option_map};
ghost use Rattle.ulid_core.specs.Limits.{ulid_time_limit};
ghost use Rattle.bucket_core.specs.Asking.{Call, Asks, AsksOnce};
ghost use Rattle.bucket_core.specs.Contents.{nothing};
ghost use Rattle.bucket_core.specs.Pages.{IsPage};
ghost use Rattle.world_core.specs.Standing.{Tells};
ghost use Rattle.world_core.specs.Keeping.{IsFull};
ghost use Rattle.moment_core.specs.Limits.{longest_tick};
ghost use Rattle.world_core.specs.Limits.{most_entries};
ghost use Rattle.world_core.specs.Operations.{IsLawful, IsAnswer, has_failed};
ghost use Rattle.bucket_core.specs.Causes.{Rose};
ghost use Rattle.world_core.specs.Machines.{gained, is_failed, IfDone, IfNotDone};
ghost use Rattle.world_core.specs.Moments.{moment_after, last_moment};

use crate::keeping::{MAX_ENTRIES, MAX_KEPT, put_size, told_size};
use crate::{Acted, Journal, Op};
use base::NoMemory;
use bucket_core::{Bucket, PageAnswer};
use label_sets::{Text, TextList};
use moment_core::{Moment, Span};
use std::alloc::Global;
use std::marker::Model;

/// Why no world was opened over a bucket.
#[derive(Drop)]
pub enum OpenRefusal {
    Failed,
    /// The bucket holds something, and lists it under this name.
    NotEmpty(Text),
    NoMemory,
}

/// A bucket, and the journal of all that was done on it.
#[derive(Drop)]
pub struct World<B: Bucket> {
    alloc: Global,
    bucket: B,
    journal: Journal,
    tick: Span,
    last: Moment,
    /// How many bytes the journal keeps.
    kept: u64,
}

impl<B: Bucket> Model for World<B> {
    ghost use Rattle.world_core.specs.Worlds.{WorldView, IsCountedWorld};

    ghost Value = { WorldView B };

    ghost view = { λ w. record { bucket = w.bucket; journal = w.journal; tick = w.tick.ms } };

    ghost invariant = { λ w.
        IsCountedWorld B.told w.bucket w.journal w.tick.ms w.last.ms w.kept };
}

impl<B: Bucket> World<B> {
    ghost use Rattle.world_core.specs.Worlds.{IsWorld, left_by_act};
    ghost use Rattle.world_core.specs.Asking.{opening, AsksBy, IsAllAsked};

    /// Opens an empty bucket. It asks for one page of names, which is no entry. Each operation takes a tick of time.
    pub fn open(alloc: Global, mut bucket: B, tick: Span) -> Result<World<B>, (OpenRefusal, B)>
        requires { tick.ms ≤ longest_tick }
        ensures journal { IfOk result (λ world. world.journal ≡ []) }
        ensures tick { IfOk result (λ world. world.tick ≡ tick.ms) }
        ensures kept { MatchResult result
            (λ world. (B.told world.bucket).contents ≡ (B.told bucket).contents)
            (λ e. (B.told e.1).contents ≡ (B.told bucket).contents) }

        // A bucket that tells what it holds is opened where nothing stands, and else names its least name.
        ensures empty { IfOk result (λ world. IfSome (B.told bucket).contents (λ c. c ≡ nothing)) }
        ensures not_empty { IfErr result (λ e. (name : List ℕ) → e.0 ≡ OpenRefusal.NotEmpty name →
            IfSome (B.told bucket).contents (λ c. IsPage c [] [] 1 (name ∷ []))) }

        // A failure has its cause in the bucket, whose count of faults rises by it alone.
        ensures later { MatchResult result
            (λ world. (B.told bucket).faults ≤ (B.told world.bucket).faults)
            (λ e. (B.told bucket).faults ≤ (B.told e.1).faults) }
        ensures failed { IfErr result
            (λ e. e.0 ≡ OpenRefusal.Failed → Rose (B.told bucket).faults (B.told e.1).faults) }
        ensures only { MatchResult result
            (λ world. (B.told world.bucket).faults ≡ (B.told bucket).faults)
            (λ e. e.0 ≢ OpenRefusal.Failed → (B.told e.1).faults ≡ (B.told bucket).faults) }
        ensures calm { (B.told bucket).quiet
            → MatchResult result (λ world. (B.told world.bucket).quiet)
            (λ e. (B.told e.1).quiet × (e.0 ≢ OpenRefusal.Failed)) }
        ensures holds { IfOk result (λ world. IsWorld B.told world) }

        // The bucket is asked for the page alone, which it may leave out where it wanted memory.
        ensures asks { MatchResult result
            (λ world. Asks (B.told bucket).asked (B.told world.bucket).asked (opening ∷ []))
            (λ e. AsksOnce (B.told bucket).asked (B.told e.1).asked opening
            e.0 OpenRefusal.NoMemory) }
        ensures all { IfOk result (λ world. (before : List Call)
            → (B.told bucket).asked ≡ Some before → IsAllAsked B.told before world) }
    {
        let refusal = match bucket.page("", "", 1) {
            PageAnswer::Names(names) => match first_name(names) {
                Some(name) => OpenRefusal::NotEmpty(name),
                None => {
                    return Ok(World {
                        alloc,
                        bucket,
                        journal: Journal::empty(alloc),
                        tick,
                        last: Moment { ms: 0 },
                        kept: 0,
                    });
                }
            },
            PageAnswer::Failed => OpenRefusal::Failed,
            PageAnswer::NoMemory => OpenRefusal::NoMemory,
        };
        Err((refusal, bucket))
    }

    /// Does one operation and adds its entry, unless the journal is full.
    pub fn act(&mut self, seat: u32, op: Op) -> Acted
        requires { IsLawful op }
        ensures full { (result ≡ Acted.Full) ↔ IsFull self.old.journal }
        ensures added { self.new.journal ≡ self.old.journal ++ gained seat op result }
        ensures answer { IfDone result (IsAnswer op) }
        ensures seq { IfDone result (λ seen. seen.seq ≡ length self.old.journal + 1) }
        ensures moment { IfDone result
            (λ seen. seen.moment.ms
            ≡ moment_after self.old.tick (last_moment self.old.journal) op) }
        ensures tick { self.new.tick ≡ self.old.tick }
        ensures unchanged { result ≡ Acted.Full → self.new ≡ self.old }
        ensures as_before { IfNotDone result
            ((self.new.journal ≡ self.old.journal)
            × ((B.told self.new.bucket).contents ≡ (B.told self.old.bucket).contents)) }

        // Where the bucket tells what it holds, the reply shows it, and what is left follows from the reply.
        ensures told { IfSome (B.told self.old.bucket).contents
            (λ c. IfDone result (λ seen. Tells c op seen.reply)) }
        ensures left { (B.told self.new.bucket).contents
            ≡ option_map (left_by_act op result) (B.told self.old.bucket).contents }

        // A failure has its cause in the bucket, whose count of faults rises by it alone.
        ensures later { (B.told self.old.bucket).faults ≤ (B.told self.new.bucket).faults }
        ensures cause { IfDone result
            (λ seen. IsTrue (has_failed seen.reply)
            → Rose (B.told self.old.bucket).faults (B.told self.new.bucket).faults) }
        ensures only { is_failed result ≡ false
            → (B.told self.new.bucket).faults ≡ (B.told self.old.bucket).faults }
        ensures calm { (B.told self.old.bucket).quiet → (B.told self.new.bucket).quiet
            × IfDone result (λ seen. has_failed seen.reply ≡ false) }
        ensures holds { IsWorld B.told self.new }

        // The bucket is asked for the operation once, and for nothing where the journal is full.
        ensures asks { AsksBy B.told self.old.bucket self.new.bucket op result }
        ensures all { result ≢ Acted.NoMemory → (before : List Call)
            → IsAllAsked B.told before self.old → IsAllAsked B.told before self.new }
    {
        if self.is_full() {
            return Acted::Full;
        }
        let moment = self.moment_of(&op);
        let size = put_size(&op);
        match self
            .journal
            .record(self.alloc, &mut self.bucket, seat, moment, op)
        {
            Ok(seen) => {
                self.last = moment;
                self.kept = self
                    .kept
                    .saturating_add(size)
                    .saturating_add(told_size(&seen.reply));
                Acted::Done(seen)
            }
            Err(NoMemory) => Acted::NoMemory,
        }
    }

    /// What was done so far.
    pub fn journal(&self) -> &Journal
        ensures journal { result.now ≡ self.now.journal }
        ensures holds { IsWorld B.told self.now }
    {
        &self.journal
    }

    /// The journal and the bucket.
    pub fn into_parts(self) -> (Journal, B)
        ensures journal { result.0 ≡ self.journal }
        ensures bucket { result.1 ≡ self.bucket }
        ensures holds { IsWorld B.told self }
    {
        (self.journal, self.bucket)
    }

    fn is_full(&self) -> bool
        ensures { IsTrue result ↔ IsFull self.now.journal }
    {
        self.journal.len() >= MAX_ENTRIES || self.kept >= MAX_KEPT
    }

    /// The moment of the next entry.
    fn moment_of(&self, op: &Op) -> Moment
        requires room { length self.now.journal < most_entries }
        requires lawful { IsLawful op.now }
        ensures value { result.ms
            ≡ moment_after self.now.tick (last_moment self.now.journal) op.now }
        ensures bound { result.ms < ulid_time_limit }
    {
        match op {
            Op::Clock(moment) => self.last.max(*moment),
            _ => Moment {
                ms: self.last.ms + self.tick.ms,
            },
        }
    }
}

fn first_name(names: TextList) -> Option<Text>
    ensures { result ≡ slice_get names 0 }
{
    names.into_vec().into_iter().next()
}

//! The record of all that was done over a bucket, of which the laws speak. Room for an entry is made before its
//! operation is done, so that nothing happens to the bucket that is not told.

ghost use Rattle.std.specs.Prelude.{◌≡◌, ◌↔◌, ℕ, ◌+◌, ◌≤◌, ◌<◌, IsTrue, List, [], ◌∷◌, ◌++◌, length, IfOk, OnErr};
ghost use Rattle.std.specs.Option.{option_copied};
ghost use Rattle.world_core.specs.Asking.{AsksIn};
ghost use Rattle.world_core.specs.Journals.{IsNumbered, entry_at};
ghost use Rattle.world_core.specs.Limits.{most_entries};
ghost use Rattle.world_core.specs.Operations.{IsLawful, entry_of};
ghost use Rattle.world_core.specs.Performing.{IsPerformed, reply_seen};

use crate::bucket_calls::perform;
use crate::{Entry, EntryList, Op, Seen};
use base::{NoMemory, TryCopy};
use bucket_core::Bucket;
use moment_core::Moment;
use std::alloc::Global;
use std::marker::Model;

/// The entries of a run, one for each operation that was done.
#[derive(Drop)]
pub struct Journal {
    entries: Vec<Entry>,
}

impl Model for Journal {
    ghost use Rattle.std.specs.Prelude.{List};
    ghost use Rattle.world_core.specs.declared.entry.Entry.{Entry};

    ghost Value = { List Entry };

    ghost view = { λ journal. journal.entries.items };
}

impl Journal {
    /// No entries. It takes no memory.
    pub fn empty(alloc: Global) -> Journal
        ensures { result ≡ [] }
    {
        Journal {
            entries: Vec::new(alloc),
        }
    }

    /// The journal of these entries, which are numbered in their order, from 1 on. It takes no memory.
    pub fn from_entries(entries: EntryList) -> Journal
        requires { IsNumbered entries }
        ensures { result ≡ entries }
    {
        Journal {
            entries: entries.into_vec(),
        }
    }

    /// How many entries there are.
    pub fn len(&self) -> u64
        ensures { result ≡ length self.now }
    {
        self.entries.len() as u64
    }

    /// Whether there is no entry.
    pub fn is_empty(&self) -> bool
        ensures { IsTrue result ↔ (self.now ≡ []) }
    {
        self.entries.is_empty()
    }

    /// The entry of this number. Numbers begin at 1.
    pub fn get(&self, seq: u64) -> Option<&Entry>
        ensures { option_copied result ≡ entry_at self.now seq }
    {
        if seq == 0 {
            return None;
        }
        self.entries.get((seq - 1) as usize)
    }

    /// The entries in order.
    pub fn entries(&self) -> &[Entry]
        ensures { result.now ≡ self.now }
    {
        self.entries.as_slice()
    }

    /// Does an operation on the bucket and adds its entry. Room for the entry is there before the operation is done.
    pub(crate) fn record<B: Bucket>(
        &mut self,
        alloc: Global,
        bucket: &mut B,
        seat: u32,
        moment: Moment,
        op: Op,
    ) -> Result<Seen, NoMemory>
        requires few { length self.old < most_entries }
        requires lawful { IsLawful op }
        ensures added { IfOk result (λ seen. self.new ≡ self.old ++ entry_of seat op seen ∷ []) }
        ensures seq { IfOk result (λ seen. seen.seq ≡ length self.old + 1) }
        ensures moment { IfOk result (λ seen. seen.moment ≡ moment) }
        ensures err { OnErr result (self.new ≡ self.old) }
        ensures performed { IsPerformed B.told bucket.old op
            (reply_seen result) bucket.new }
        ensures asks { AsksIn B.told bucket.old bucket.new op (reply_seen result) }
    {
        self.entries.reserve(1)?;
        let seq = self.entries.len() as u64 + 1;
        let reply = perform(alloc, bucket, &op)?;
        let told = reply.copy()?;
        let pushed = self.entries.push(Entry {
            seq,
            seat,
            moment,
            op,
            reply,
        });
        pushed.unwrap();
        Ok(Seen {
            seq,
            moment,
            reply: told,
        })
    }
}

//! A hand that answers by a world, or by replies that are written out, as long as they are such as the operation may have.
ghost use Rattle.std.specs.Prelude.{◌≡◌, [], ◌∷◌, ◌++◌, ◌+◌, IsTrue, IfOk, OnErr};
ghost use Rattle.world_core.specs.Operations.{IsLawful, IsReplyTo, entry_of};

use crate::replies::Answer;
use base::{NoMemory, TryCopy};
use bucket_core::MemoryBucket;
use moment_core::Moment;
use std::alloc::Global;
use std::collections::VecDeque;
use world_core::{Acted, Entry, Hand, Journal, Op, Reply, Seen, World};

/// The least number that is no moment of an entry: 2^48.
const LIMIT: u64 = 0x1_0000_0000_0000;

/// A hand of the seat 1. Its entries are numbered from what stood in the world's journal on.
#[derive(Drop)]
pub(crate) struct Played {
    world: World<MemoryBucket>,
    /// The number of the last entry.
    last: u64,
    /// What answers the next operations.
    waiting: VecDeque<Answer>,
    /// Nothing answers when no reply is waiting.
    ends: bool,
    entries: Vec<Entry>,
    refused: bool,
}

impl Played {
    pub(crate) fn new(alloc: Global, world: World<MemoryBucket>) -> Played {
        let last = world.journal().len();
        Played {
            world,
            last,
            waiting: VecDeque::new(alloc),
            ends: false,
            entries: Vec::new(alloc),
            refused: false,
        }
    }

    /// One answer more, and whether nothing answers behind the last of them.
    pub(crate) fn push(&mut self, answer: Answer, ends: bool) {
        drop(self.waiting.push_back(answer));
        self.ends = ends;
    }

    /// What was asked for and answered.
    pub(crate) fn entries(&self) -> &[Entry] {
        self.entries.as_slice()
    }

    pub(crate) fn journal(&self) -> &Journal {
        self.world.journal()
    }

    fn answered(&mut self, op: &Op) -> Acted
        requires { IsLawful op.now }
        ensures entries { self.new.entries.items ≡ self.old.entries.items }
        ensures refused { self.new.refused ≡ self.old.refused }
        ensures last { self.new.last ≡ self.old.last }
    {
        match self.waiting.pop_front() {
            Some(Answer::Told(ms, reply)) => Acted::Done(Seen {
                seq: 0,
                moment: Moment { ms },
                reply,
            }),
            None if self.ends => Acted::NoMemory,
            _ => match op.copy() {
                Ok(same) => self.world.act(1, same),
                Err(NoMemory) => Acted::NoMemory,
            },
        }
    }
}

impl Hand for Played {
    ghost use Rattle.std.specs.Prelude.{None, false};

    ghost told = { λ hand. record {
      entries = hand.entries.items;
      seat = 1;
      front = None;
      known = hand.last;
      refused = hand.refused;
      wanted = false;
    } };

    ghost keeps = { λ old new. Unit {0} };

    ghost keeps_none = { λ hand. tt };

    ghost keeps_more = { λ first next last one two. tt };

    fn act(&mut self, op: Op) -> Acted {
        let seen = match self.answered(&op) {
            Acted::Done(seen) => seen,
            Acted::Full => {
                drop(op);
                self.refused = true;
                return Acted::Full;
            }
            Acted::NoMemory => {
                drop(op);
                return Acted::NoMemory;
            }
        };
        let Seen { moment, reply, .. } = seen;
        if moment.ms >= LIMIT || !may_answer(&op, &reply) {
            drop(op);
            drop(reply);
            return Acted::NoMemory;
        }
        match record(&mut self.entries, self.last, moment, op, reply) {
            Ok(seen) => {
                self.last = seen.seq;
                Acted::Done(seen)
            }
            Err(NoMemory) => Acted::NoMemory,
        }
    }

    fn look(&mut self) -> u64 {
        self.last
    }
}

/// Adds the entry of an operation, behind one of the number `last`. Where no number is left it lacks memory.
fn record(
    entries: &mut Vec<Entry>,
    last: u64,
    moment: Moment,
    op: Op,
    reply: Reply,
) -> Result<Seen, NoMemory>
    ensures added { IfOk result
        (λ seen. entries.new.items ≡ entries.old.items ++ entry_of 1 op seen ∷ []) }
    ensures number { IfOk result (λ seen. seen.seq ≡ last + 1) }
    ensures moment { IfOk result (λ seen. seen.moment ≡ moment) }
    ensures reply { IfOk result (λ seen. seen.reply ≡ reply) }
    ensures err { OnErr result (entries.new.items ≡ entries.old.items) }
{
    let Some(seq) = last.checked_add(1) else {
        drop(op);
        drop(reply);
        return Err(NoMemory);
    };
    let Ok(told) = reply.copy() else {
        drop(op);
        drop(reply);
        return Err(NoMemory);
    };
    let pushed = entries.push(Entry {
        seq,
        seat: 1,
        moment,
        op,
        reply,
    });
    if pushed.ok().is_none() {
        drop(told);
        return Err(NoMemory);
    }
    Ok(Seen {
        seq,
        moment,
        reply: told,
    })
}

/// Tells whether the operation may be answered so.
fn may_answer(op: &Op, reply: &Reply) -> bool
    ensures { IsTrue result → IsReplyTo op.now reply.now }
{
    match op {
        Op::Clock(_) => matches!(reply, Reply::Clocked),
        Op::Get(_) | Op::GetRange(_, _, _) => matches!(
            reply,
            Reply::Found(_) | Reply::Absent | Reply::Failed(false)
        ),
        Op::Put(_, _) => matches!(reply, Reply::Stored | Reply::Failed(_)),
        Op::Delete(_) => matches!(reply, Reply::Deleted | Reply::Failed(_)),
        Op::RootPage(_, _) | Op::BlockPage(_, _, _) => {
            matches!(reply, Reply::Names(_) | Reply::Failed(false))
        }
    }
}

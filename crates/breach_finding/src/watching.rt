//! Which entries are a sync, told by running a real `Sync` over those of a seat: an entry goes on with it where it does
//! what the machine asks for. A good meta is passed on to it as absent: it then asks for the same, and keeps no meta in
//! memory.

ghost use Rattle.std.specs.Prelude.{◌≡◌, ◌↔◌, ◌≤◌, ◌<◌, ℕ, List, [], ◌∷◌, Some, Ok, IfOk, IsTrue};
ghost use Rattle.ulid_core.specs.Limits.{ulid_time_limit};
ghost use Rattle.world_core.specs.Machines.{GoesOn};
ghost use Rattle.world_core.specs.Operations.{IsLawful, IsReplyTo};
ghost use Rattle.world_core.specs.declared.entry.Entry.{Entry};
ghost use Rattle.world_core.specs.declared.op.Op.TheVariants as op;
ghost use Rattle.block_keys.specs.declared.key.Key.TheVariants as key;
ghost use Rattle.meta_fetcher.specs.declared.rules.SyncRules.{SyncRules};
ghost use Rattle.breach_finding.specs.Watching.{Begins, IsAt, IsSyncOp, IsTurn, IsWaiting, Went, as_passed, came_of, passed_on};

use base::{NoMemory, TryCopy};
use block_keys::Key;
use block_meta::meta_of;
use meta_fetcher::{Sync, SyncEnd, SyncRules};
use std::alloc::Global;
use ulid_core::Ulid;
use world_core::{Act, Entry, Machine, Op, Reply, Seen};

/// A sync of a seat that is under way: the operation that it waits for, and when its first entry was made.
#[derive(Drop)]
pub(crate) struct UnderWay {
    pub(crate) machine: Sync,
    pub(crate) asks: Op,
    pub(crate) begin: u64,
}

/// How far a sync has come with an entry.
#[derive(Clone, Copy, Debug, PartialEq, Eq)]
pub(crate) enum Came {
    /// It goes on, if its seat has further entries.
    GoesOn,
    /// It gave a view.
    View,
    /// It ended without a view.
    Nothing,
}

/// What an entry is to a sync.
#[derive(Clone, Copy, Debug, PartialEq, Eq)]
pub(crate) struct Told {
    pub(crate) begin: u64,
    pub(crate) came: Came,
}

/// What is under way after an entry of a seat, and what the entry was to a sync.
#[derive(Drop)]
pub(crate) struct Turn {
    pub(crate) under: Option<UnderWay>,
    pub(crate) told: Option<Told>,
}

/// Whether an operation reads under the key.
fn is_get(done: &Op, key: &Key) -> bool
    ensures { IsTrue result ↔ (done.now ≡ op.Get key.now) }
{
    match done {
        Op::Get(own) => *own == *key,
        _ => false,
    }
}

/// Whether an operation asks for these names.
fn is_page(done: &Op, after: &str, limit: u32) -> bool
    ensures { IsTrue result ↔ (done.now ≡ op.RootPage after.now limit) }
{
    match done {
        Op::RootPage(own, count) => own.as_str() == after && *count == limit,
        _ => false,
    }
}

/// Whether an operation is the one that a sync asks for.
fn is_asked(asks: &Op, done: &Op) -> bool
    ensures same { IsTrue result → asks.now ≡ done.now }
    ensures other { IsSyncOp asks.now → asks.now ≡ done.now → IsTrue result }
{
    match asks {
        Op::Get(key) => is_get(done, key),
        Op::RootPage(after, limit) => is_page(done, after.as_str(), *limit),
        _ => false,
    }
}

/// Whether a sync that ended gave a view.
fn came_to(end: &SyncEnd) -> Came
    ensures { result ≡ came_of end.now }
{
    match end {
        SyncEnd::View(_) => Came::View,
        SyncEnd::Fault(_) => Came::Nothing,
        SyncEnd::Damaged(_) => Came::Nothing,
        SyncEnd::TooMany => Came::Nothing,
    }
}

/// A sync before its first entry.
fn opened_sync(alloc: Global, rules: SyncRules, begin: u64) -> Result<UnderWay, NoMemory>
    requires { 1 ≤ rules.page_limit }
    ensures at { IfOk result (λ w. IsAt rules [] w.machine w.asks) }
    ensures asks { IfOk result (λ w. w.asks ≡ op.RootPage [] rules.page_limit) }
    ensures begun { IfOk result (λ w. w.begin ≡ begin) }
{
    let mut machine = Sync::start(alloc, rules)?;
    match machine.first()? {
        Act::Do(asks) => Ok(UnderWay {
            machine,
            asks,
            begin,
        }),
        Act::Done(_) => unreachable!(),
    }
}

/// What a watched sync is told of a reply to its read of a block's meta.
fn without_meta(alloc: Global, ulid: Ulid, reply: &Reply) -> Result<Reply, NoMemory>
    ensures told { IfOk result (λ told.
        told ≡ passed_on (op.Get (key.Meta ulid)) reply.now) }
    ensures kind { IfOk result (λ told. IsReplyTo (op.Get (key.Meta ulid)) reply.now
        → IsReplyTo (op.Get (key.Meta ulid)) told) }
{
    match reply {
        Reply::Found(bytes) => match meta_of(alloc, ulid, bytes.bytes())? {
            Some(_) => Ok(Reply::Absent),
            None => reply.copy(),
        },
        _ => reply.copy(),
    }
}

/// What a watched sync is told of a reply: all, but that a block's meta is passed over, which it would keep.
fn passed_on(alloc: Global, done: &Op, reply: &Reply) -> Result<Reply, NoMemory>
    ensures told { IfOk result (λ told. told ≡ passed_on done.now reply.now) }
    ensures kind { IfOk result (λ told. IsReplyTo done.now reply.now → IsReplyTo done.now told) }
{
    match done {
        Op::Get(Key::Meta(ulid)) => without_meta(alloc, *ulid, reply),
        _ => reply.copy(),
    }
}

/// What a sync comes to with the entry that it waits for.
fn act_with_entry(alloc: Global, machine: &mut Sync, e: &Entry) -> Result<Act<SyncEnd>, NoMemory>
    requires waits { ⟦<Sync as Machine>⟧.asked machine.old ≡ Some e.now.op }
    requires kind { IsReplyTo e.now.op e.now.reply }
    requires small { e.now.moment.ms < ulid_time_limit }
    ensures { IfOk result (λ act.
        GoesOn ⟦<Sync as Machine>⟧.may ⟦<Sync as Machine>⟧.asked machine.old
        (as_passed e.now ∷ []) (Ok act) machine.new) }
{
    let reply = passed_on(alloc, &e.op, &e.reply)?;
    machine.step(Seen {
        seq: e.seq,
        moment: e.moment,
        reply,
    })
}

/// Goes on with the entry that a sync waits for.
fn goes_on(alloc: Global, w: UnderWay, e: &Entry) -> Result<Turn, NoMemory>
    requires waits { ⟦<Sync as Machine>⟧.asked w.machine ≡ Some e.now.op }
    requires kind { IsReplyTo e.now.op e.now.reply }
    requires small { e.now.moment.ms < ulid_time_limit }
    ensures went { IfOk result (λ turn. (rules : SyncRules) (made : List Entry)
        → IsAt rules made w.machine w.asks → Went rules made e.now w.begin turn) }
    ensures waits { IfOk result (λ turn. IsWaiting turn.under) }
{
    let UnderWay {
        mut machine,
        asks: _,
        begin,
    } = w;
    let Ok(act) = act_with_entry(alloc, &mut machine, e) else {
        drop(machine);
        return Err(NoMemory);
    };
    match act {
        Act::Do(asks) => Ok(Turn {
            under: Some(UnderWay {
                machine,
                asks,
                begin,
            }),
            told: Some(Told {
                begin,
                came: Came::GoesOn,
            }),
        }),
        Act::Done(end) => {
            drop(machine);
            let came = came_to(&end);
            drop(end);
            Ok(Turn {
                under: None,
                told: Some(Told { begin, came }),
            })
        }
    }
}

/// Begins a sync with an entry that asks for the first page.
fn begins(alloc: Global, rules: SyncRules, e: &Entry) -> Result<Turn, NoMemory>
    requires lawful { IsLawful e.now.op }
    requires kind { IsReplyTo e.now.op e.now.reply }
    requires small { e.now.moment.ms < ulid_time_limit }
    ensures turn { IfOk result (Begins rules e.now) }
    ensures waits { IfOk result (λ turn. IsWaiting turn.under) }
{
    if !is_page(&e.op, "", rules.page_limit) {
        return Ok(Turn {
            under: None,
            told: None,
        });
    }
    let w = opened_sync(alloc, rules, e.moment.ms)?;
    goes_on(alloc, w, e)
}

/// What an entry of a seat is to the sync that is under way, or to one that it begins.
pub(crate) fn take_turn(
    alloc: Global,
    rules: SyncRules,
    under: Option<UnderWay>,
    e: &Entry,
) -> Result<Turn, NoMemory>
    requires lawful { IsLawful e.now.op }
    requires kind { IsReplyTo e.now.op e.now.reply }
    requires small { e.now.moment.ms < ulid_time_limit }
    requires waits { IsWaiting under }
    ensures turn { IfOk result (IsTurn rules under e.now) }
    ensures waits { IfOk result (λ turn. IsWaiting turn.under) }
{
    match under {
        None => begins(alloc, rules, e),
        Some(w) => {
            if is_asked(&w.asks, &e.op) {
                goes_on(alloc, w, e)
            } else {
                drop(w);
                begins(alloc, rules, e)
            }
        }
    }
}

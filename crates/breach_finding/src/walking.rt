//! The breach of a journal: the first entry that a rule refuses. One walk finds it, as all that the rules ask of
//! earlier entries goes along with it: what stands, the syncs under way, and when each gateway's view began.

ghost use Rattle.std.specs.Prelude.{◌≡◌, ◌↔◌, ◌<◌, ◌≤◌, ℕ, IsTrue, List, length, Option, Some, IfOk, OnOk, slice_get};
ghost use Rattle.std.specs.BTreeMap.{get};
ghost use Rattle.std.specs.Ordering.{nat_cmp};
ghost use Rattle.ulid_core.specs.Limits.{ulid_time_limit};
ghost use Rattle.moment_core.specs.Limits.{longest_span};
ghost use Rattle.world_core.specs.Journals.{Each};
ghost use Rattle.world_core.specs.Operations.{IsLawful, IsReplyTo};
ghost use Rattle.world_core.specs.Worlds.{IsJournal, IsOfBytes};
ghost use Rattle.script_core.specs.Lawful.{IsLawfulScript};
ghost use Rattle.lifecycle_core.specs.Setting.{FromShelf};
ghost use Rattle.breach_finding.specs.Entries.{IsEntryTold, IsWatchedTold};
ghost use Rattle.breach_finding.specs.Walks.{IsAnswer, setting_with};
ghost use Rattle.breach_finding.specs.Watching.{IsWaiting};

use crate::Standing;
use crate::followed::Followed;
use crate::found::{Breach, BreachRule, Refusal};
use crate::judging::{early_refusal, first_of, late_refusal, refusal_by, stand};
use crate::tables::{Tables, tables_of};
use crate::times::compaction_lateness;
use base::NoMemory;
use script_core::Script;
use std::alloc::Global;
use std::collections::BTreeMap;
use world_core::{Entry, Op, Reply};

/// The entry at a place.
fn entry_at(journal: &[Entry], place: usize) -> &Entry
    requires { place < length journal.now }
    ensures { slice_get journal.now place ≡ Some result.now }
{
    &journal[place]
}

/// The breach that an entry shows.
fn breach_of(refusal: Refusal, entry: &Entry) -> Breach
    ensures rule { result.rule ≡ refusal.rule }
    ensures entry { result.entry ≡ entry.now.seq }
    ensures found { result.found ≡ refusal.found }
    ensures allowed { result.allowed ≡ refusal.allowed }
{
    Breach {
        rule: refusal.rule,
        entry: entry.seq,
        found: refusal.found,
        allowed: refusal.allowed,
    }
}

/// Whether a reply is of an operation's kind.
fn is_reply_to(op: &Op, reply: &Reply) -> bool
    ensures { IsTrue result ↔ IsReplyTo op.now reply.now }
{
    match op {
        Op::Clock(_) => matches!(reply, Reply::Clocked),
        Op::Put(_, _) => matches!(reply, Reply::Stored | Reply::Failed(_)),
        Op::Get(_) | Op::GetRange(_, _, _) => matches!(
            reply,
            Reply::Found(_) | Reply::Absent | Reply::Failed(false)
        ),
        Op::Delete(_) => matches!(reply, Reply::Deleted | Reply::Failed(_)),
        Op::RootPage(_, _) | Op::BlockPage(_, _, _) => {
            matches!(reply, Reply::Names(_) | Reply::Failed(false))
        }
    }
}

/// Asks all rules of an entry, and takes note of it.
fn entry_refusal(
    alloc: Global,
    script: &Script,
    journal: &[Entry],
    tables: &Tables,
    followed: &mut Followed,
    entry: &Entry,
) -> Result<Option<Refusal>, NoMemory>
    requires span { script.now.rules.ignore.ms ≤ longest_span }
    requires lawful { IsLawful entry.now.op }
    requires small { entry.now.moment.ms < ulid_time_limit }
    requires waits { (seat : ℕ) → IsWaiting (get nat_cmp followed.old.unders seat) }
    ensures told { IsReplyTo entry.now.op entry.now.reply
        → IfOk result (IsEntryTold script.now journal.now tables.now
        followed.old followed.new entry.now) }
    ensures waits { OnOk result ((seat : ℕ) → IsWaiting (get nat_cmp followed.new.unders seat)) }
{
    let early = early_refusal(alloc, script, journal, &followed.standing, entry)?;
    if early.is_some() {
        return Ok(early);
    }
    let late = watched_refusal(alloc, script, tables, followed, entry)?;
    let slow = compaction_lateness(tables, entry, script.rules.delete.ms);
    Ok(first_of(late, refusal_by(BreachRule::ReadTime, slow)))
}

/// Asks of an entry what depends on syncs and views, if its seat is a gateway's, and takes note of it. Nothing is told by one whose
/// reply is none to its operation.
fn watched_refusal(
    alloc: Global,
    script: &Script,
    tables: &Tables,
    followed: &mut Followed,
    entry: &Entry,
) -> Result<Option<Refusal>, NoMemory>
    requires span { script.now.rules.ignore.ms ≤ longest_span }
    requires lawful { IsLawful entry.now.op }
    requires small { entry.now.moment.ms < ulid_time_limit }
    requires waits { (seat : ℕ) → IsWaiting (get nat_cmp followed.old.unders seat) }
    ensures told { IsReplyTo entry.now.op entry.now.reply → IfOk result (IsWatchedTold
        script.now tables.now followed.old followed.new entry.now) }
    ensures waits { OnOk result ((seat : ℕ) → IsWaiting (get nat_cmp followed.new.unders seat)) }
{
    if !is_reply_to(&entry.op, &entry.reply) {
        return Ok(None);
    }
    match tables.gateways.get(&entry.seat) {
        Some(gateway) => { late_refusal(alloc, script, &tables.lasts, followed, *gateway, entry) }
        None => Ok(None),
    }
}

/// The breach of a journal of the script: the first entry that a rule refuses, with the rule and its two numbers, and none where
/// no rule refuses an entry. Of lists of entries that are no such journal nothing is said of the answer.
pub fn breach(alloc: Global, journal: &[Entry], script: &Script) -> Result<Option<Breach>, NoMemory>
    requires lawful { Each (λ before e. IsLawful e.op) journal.now }
    requires small { Each (λ before e. e.moment.ms < ulid_time_limit) journal.now }
    requires span { script.now.rules.ignore.ms ≤ longest_span }
    ensures { (shelf : ℕ → FromShelf)
        → IsLawfulScript script.now → IsJournal script.now.rules.tick.ms journal.now
        → IsOfBytes journal.now
        → IfOk result (IsAnswer (setting_with script.now shelf) journal.now) }
{
    let tables = tables_of(alloc, script, journal)?;
    let standing = Standing::nothing(alloc);
    let unders = BTreeMap::new(alloc);
    let views = BTreeMap::new(alloc);
    let mut followed = Followed {
        standing,
        unders,
        views,
    };
    for place in 0..journal.len() {
        let entry = entry_at(journal, place);
        let refused = entry_refusal(alloc, script, journal, &tables, &mut followed, entry)?;
        if let Some(refusal) = refused {
            return Ok(Some(breach_of(refusal, entry)));
        }
        stand(&mut followed.standing, entry, place)?;
    }
    Ok(None)
}

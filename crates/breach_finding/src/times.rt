//! The rules of time on syncs, and on what a gateway or a compaction reads afterwards: what was seen at the beginning
//! may not be so old that a cleaning has deleted the blocks since.

ghost use Rattle.std.specs.Prelude.{◌≡◌, ◌↔◌, ◌/◌, ◌<◌, IsTrue, Some};
ghost use Rattle.std.specs.BTreeMap.{get};
ghost use Rattle.std.specs.BTreeSet.{contains};
ghost use Rattle.std.specs.Ordering.{nat_cmp};
ghost use Rattle.ulid_core.specs.Limits.{ulid_time_limit};
ghost use Rattle.block_keys.specs.declared.key.Key.{Key};
ghost use Rattle.lifecycle_core.specs.Breaches.{HoldsSamples, IsReading, read_key};
ghost use Rattle.breach_finding.specs.Asked.{IsSyncAnswer, is_whole};
ghost use Rattle.breach_finding.specs.Views.{IsCompactionAnswer, IsViewAnswer};

use crate::puts::over;
use crate::tables::Tables;
use crate::watching::{Came, Told};
use block_keys::Key;
use moment_core::SECOND;
use world_core::{Entry, Op};

/// Whether a sync is whole with its last entry.
fn is_whole(came: Came, last: bool) -> bool
    ensures { result ≡ is_whole came last }
{
    match came {
        Came::GoesOn => last,
        Came::View => true,
        Came::Nothing => true,
    }
}

/// How the last entry of a sync comes too late, if it is one's and does.
pub(crate) fn sync_lateness(
    told: Option<Told>,
    last: bool,
    moment: u64,
    span: u64,
) -> Option<(u64, u64)>
    requires { moment < ulid_time_limit }
    ensures { IsSyncAnswer told last moment span result }
{
    let told = told?;
    if !is_whole(told.came, last) {
        return None;
    }
    over(moment + SECOND, told.begin, span)
}

/// How a read comes too late for what began then, a view or a compaction, if something did and it does.
pub(crate) fn lateness(begin: Option<u64>, is: u64, span: u64) -> Option<(u64, u64)>
    ensures { IsViewAnswer begin is span result }
{
    match begin {
        Some(begin) => over(is, begin, span),
        None => None,
    }
}

/// How a compaction's read comes too late, if the entry is one and does.
pub(crate) fn compaction_lateness(tables: &Tables, entry: &Entry, delay: u64) -> Option<(u64, u64)>
    ensures { IsCompactionAnswer (contains nat_cmp tables.now.compactors entry.now.seat)
        (get nat_cmp tables.now.begins entry.now.seat) entry.now (delay / 2) result }
{
    if !tables.compactors.contains(&entry.seat) || !is_reading(&entry.op) {
        return None;
    }
    let begin = tables.begins.get(&entry.seat).copied();
    lateness(begin, entry.moment.ms, delay / 2)
}

/// Whether an operation is a get, a range or a page.
fn is_reading(op: &Op) -> bool
    ensures { IsTrue result ↔ IsReading op.now }
{
    match op {
        Op::Get(_) | Op::GetRange(..) | Op::RootPage(..) | Op::BlockPage(..) => true,
        Op::Clock(_) | Op::Put(..) | Op::Delete(_) => false,
    }
}

/// Whether an operation reads what gateways read for queries alone.
pub(crate) fn reads_samples(op: &Op) -> bool
    ensures { IsTrue result ↔ ((key : Key) × (read_key op.now ≡ Some key) × HoldsSamples key) }
{
    match op {
        Op::Get(key) => holds_samples(key),
        Op::GetRange(key, _, _) => holds_samples(key),
        _ => false,
    }
}

/// Whether gateways read under the key for queries alone.
fn holds_samples(key: &Key) -> bool
    ensures { IsTrue result ↔ HoldsSamples key.now }
{
    match key {
        Key::Index(_) => true,
        Key::Segment(_, _) => true,
        Key::Meta(_) => false,
        Key::Mark(_) => false,
    }
}

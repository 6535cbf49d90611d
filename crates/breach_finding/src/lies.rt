//! Whether a reply is a lie: whether it shows another thing than what the puts and deletes before it have left. A call
//! that failed shows nothing, so it is no lie.

ghost use Rattle.std.specs.Prelude.{◌≡◌, ◌++◌, codes, ℕ, List, [], IfOk, option_map};
ghost use Rattle.std.specs.Option.{option_copied};
ghost use Rattle.ulid_core.specs.UlidText.{text_of};
ghost use Rattle.bucket_core.specs.Contents.{Contents, range_of};
ghost use Rattle.world_core.specs.Operations.{IsLawful};
ghost use Rattle.world_core.specs.Standing.{stands};
ghost use Rattle.world_core.specs.declared.entry.Entry.{Entry};
ghost use Rattle.breach_finding.specs.Standings.{IsStanding};
ghost use Rattle.lifecycle_core.specs.Breaches.{IsLie, shown_by};
ghost use Rattle.breach_finding.specs.Told.{IsPageWrong, IsShownWrong, IsTold, names_text, object_text};

use crate::Standing;
use crate::differing::{first_difference, names_difference};
use base::NoMemory;
use label_sets::Text;
use std::alloc::Global;
use ulid_core::Ulid;
use wire_bytes::range_in;
use world_core::{Entry, Op, Reply};

/// The letter with which the text of a found object begins, that of an absent one, and that of names.
const FOUND: u64 = 70;

const ABSENT: u64 = 65;

const NAMES: u64 = 78;

/// How a reply differs from what is owed of an object: its bytes, or none.
pub(crate) fn object_lie(reply: &Reply, owed: Option<&[u8]>) -> Option<(u64, u64)>
    ensures { IsShownWrong (shown_by reply.now) (object_text (option_copied owed.entry)) result }
{
    match owed {
        Some(bytes) => found_lie(reply, bytes),
        None => absent_lie(reply),
    }
}

/// How a reply differs where an object is owed.
fn found_lie(reply: &Reply, owed: &[u8]) -> Option<(u64, u64)>
    ensures { IsShownWrong (shown_by reply.now) (codes "F" ++ owed.now) result }
{
    match reply {
        Reply::Found(bytes) => first_difference(bytes.bytes(), owed),
        Reply::Absent => Some((ABSENT, FOUND)),
        Reply::Names(_) => Some((NAMES, FOUND)),
        Reply::Clocked | Reply::Stored | Reply::Deleted | Reply::Failed(_) => None,
    }
}

/// How a reply differs where nothing stands.
fn absent_lie(reply: &Reply) -> Option<(u64, u64)>
    ensures { IsShownWrong (shown_by reply.now) (codes "A") result }
{
    match reply {
        Reply::Found(_) => Some((FOUND, ABSENT)),
        Reply::Absent => None,
        Reply::Names(_) => Some((NAMES, ABSENT)),
        Reply::Clocked | Reply::Stored | Reply::Deleted | Reply::Failed(_) => None,
    }
}

/// How a reply differs where these names are owed.
pub(crate) fn names_lie(
    alloc: Global,
    reply: &Reply,
    owed: &[Text],
) -> Result<Option<(u64, u64)>, NoMemory>
    ensures { IfOk result (IsShownWrong (shown_by reply.now) (names_text owed.now)) }
{
    match reply {
        Reply::Names(names) => names_difference(alloc, names.members(), owed),
        Reply::Found(_) => Ok(Some((FOUND, NAMES))),
        Reply::Absent => Ok(Some((ABSENT, NAMES))),
        Reply::Clocked | Reply::Stored | Reply::Deleted | Reply::Failed(_) => Ok(None),
    }
}

/// How a reply differs from what is owed of a part of an object.
fn part_lie(reply: &Reply, owed: Option<&[u8]>, from: u64, len: u64) -> Option<(u64, u64)>
    ensures { IsShownWrong (shown_by reply.now)
        (object_text (option_map (range_of from len) (option_copied owed.entry))) result }
{
    match owed {
        Some(bytes) => found_lie(reply, range_in(bytes, from, len)),
        None => absent_lie(reply),
    }
}

/// How a reply differs from the page of blocks that is owed.
fn root_lie(
    alloc: Global,
    standing: &Standing,
    reply: &Reply,
    after: &str,
    limit: u32,
) -> Result<Option<(u64, u64)>, NoMemory>
    ensures { IfOk result (λ told. (entries : List Entry) (contents : Contents)
        → IsStanding entries standing.now contents
        → IsPageWrong contents [] after.now limit reply.now told) }
{
    let owed = standing.page_of_blocks(alloc, after, limit)?;
    names_lie(alloc, reply, owed.members())
}

/// How a reply differs from the page of a block's objects that is owed.
fn block_lie(
    alloc: Global,
    standing: &Standing,
    reply: &Reply,
    ulid: Ulid,
    after: &str,
    limit: u32,
) -> Result<Option<(u64, u64)>, NoMemory>
    ensures { IfOk result (λ told. (entries : List Entry) (contents : Contents)
        → IsStanding entries standing.now contents
        → IsPageWrong contents (text_of ulid) after.now limit reply.now told) }
{
    let owed = standing.page_of_block(alloc, ulid, after, limit)?;
    names_lie(alloc, reply, owed.members())
}

/// How the reply of an entry is a lie, if it is one, where this stands after the entries before it.
pub(crate) fn lie(
    alloc: Global,
    standing: &Standing,
    entries: &[Entry],
    entry: &Entry,
) -> Result<Option<(u64, u64)>, NoMemory>
    requires { IsLawful entry.now.op }
    ensures { IfOk result (λ told. (before : List Entry)
        → IsStanding entries.now standing.now (stands before)
        → IsTold (IsLie before entry.now) told) }
{
    let reply = &entry.reply;
    match &entry.op {
        Op::Get(key) => Ok(object_lie(reply, standing.get(entries, *key))),
        Op::GetRange(key, from, len) => {
            Ok(part_lie(reply, standing.get(entries, *key), *from, *len))
        }
        Op::RootPage(after, limit) => root_lie(alloc, standing, reply, after.as_str(), *limit),
        Op::BlockPage(ulid, after, limit) => {
            block_lie(alloc, standing, reply, *ulid, after.as_str(), *limit)
        }
        Op::Clock(_) => Ok(None),
        Op::Put(_, _) => Ok(None),
        Op::Delete(_) => Ok(None),
    }
}

//! The rules of time on puts. Everybody else goes by the time in a block's ULID and by the second in its mark, so an
//! object that a slow worker puts long after that comes as a surprise.

ghost use Rattle.std.specs.Prelude.{◌≡◌, ◌≢◌, ◌⊎◌, ◌+◌, None, List, ℕ, IfOk, IfSome, option_map};
ghost use Rattle.std.specs.Result.{result_ok};
ghost use Rattle.block_keys.specs.Keys.{key_ulid};
ghost use Rattle.block_meta.specs.MetaFields.{mark_fields_of};
ghost use Rattle.block_meta.specs.MetaReading.{mark_of_text};
ghost use Rattle.block_meta.specs.MetaText.{IsMarkText};
ghost use Rattle.lifecycle_core.specs.TimeRules.{IsBlockObject};
ghost use Rattle.ulid_core.specs.Times.{time_of};
ghost use Rattle.world_core.specs.Standing.{has_landed};
ghost use Rattle.world_core.specs.declared.entry.Entry.{Entry};
ghost use Rattle.lifecycle_core.specs.Breaches.{IsOver, Refuses};
ghost use Rattle.lifecycle_core.specs.Breaches as breaches;
ghost use Rattle.lifecycle_core.specs.Setting.{Setting};
ghost use Rattle.breach_finding.specs.Told.{IsLateMark, IsSecondOf, IsTold};

use base::NoMemory;
use block_keys::Key;
use block_meta::{DeletionMark, MetaRefusal};
use moment_core::{Rules, SECOND};
use std::alloc::Global;
use ulid_core::Ulid;
use world_core::{Entry, Op, Reply};

/// How a number passes a sum, if it does.
pub(crate) fn over(is: u64, base: u64, span: u64) -> Option<(u64, u64)>
    ensures { IsTold (IsOver is (base + span)) result }
{
    if is <= base || is - base <= span {
        return None;
    }
    Some((is, base + span))
}

/// How the put of a block's object comes before the block's time, or too long after it.
fn untimely(ulid: Ulid, moment: u64, limit: u64) -> Option<(u64, u64)>
    ensures { IsTold (λ x y. IsOver (time_of ulid) moment x y
        ⊎ IsOver moment (time_of ulid + limit) x y) result }
{
    let time = ulid.time();
    if moment < time {
        return Some((time, moment));
    }
    over(moment, time, limit)
}

/// How the put of an object under a key comes before its block's time, or too long after it. A mark may come at any time.
fn object_untimely(key: &Key, moment: u64, limit: u64) -> Option<(u64, u64)>
    ensures { IsTold (λ x y. IsBlockObject key.now
        × (IsOver (time_of (key_ulid key.now)) moment x y
        ⊎ IsOver moment (time_of (key_ulid key.now) + limit) x y)) result }
{
    match key {
        Key::Meta(ulid) => untimely(*ulid, moment, limit),
        Key::Index(ulid) => untimely(*ulid, moment, limit),
        Key::Segment(ulid, _) => untimely(*ulid, moment, limit),
        Key::Mark(_) => None,
    }
}

/// How the rule on uploads refuses an entry, if it does.
pub(crate) fn upload_breach(entry: &Entry, rules: &Rules) -> Option<(u64, u64)>
    ensures { (setting : Setting) (journal before : List Entry) → setting.script.rules ≡ rules.now
        → IsTold (Refuses setting journal breaches.upload_time before entry.now) result }
{
    match &entry.op {
        Op::Put(key, _) => object_untimely(key, entry.moment.ms, rules.upload.ms),
        _ => None,
    }
}

/// The mark that bytes are read as, if they are a mark's.
fn read_mark(alloc: Global, bytes: &[u8]) -> Result<Option<DeletionMark>, NoMemory>
    ensures reads { IfOk result
        (λ mark. option_map mark_fields_of mark ≡ result_ok (mark_of_text bytes.now)) }
    ensures found { IfOk result
        (λ mark. IfSome mark (λ one. IsMarkText bytes.now (mark_fields_of one))) }
{
    match DeletionMark::read(alloc, bytes) {
        Ok(mark) => Ok(Some(mark)),
        Err(MetaRefusal::NoMemory) => Err(NoMemory),
        Err(_) => Ok(None),
    }
}

/// The second that a mark's text tells.
fn mark_second(alloc: Global, bytes: &[u8]) -> Result<Option<u64>, NoMemory>
    ensures { IfOk result (IsSecondOf bytes.now) }
{
    match read_mark(alloc, bytes)? {
        Some(mark) => Ok(Some(mark.deletion_time)),
        None => Ok(None),
    }
}

/// How the mark of a text comes too late, if it does.
fn late_mark(
    alloc: Global,
    bytes: &[u8],
    moment: u64,
    span: u64,
) -> Result<Option<(u64, u64)>, NoMemory>
    ensures { IfOk result (IsTold (IsLateMark bytes.now moment span)) }
{
    match mark_second(alloc, bytes)? {
        Some(second) => Ok(over(moment, SECOND * second, span)),
        None => Ok(None),
    }
}

/// Whether a put or a delete took effect.
pub(crate) fn has_landed(reply: &Reply) -> bool
    ensures { result ≡ has_landed reply.now }
{
    match reply {
        Reply::Stored => true,
        Reply::Deleted => true,
        Reply::Failed(landed) => *landed,
        _ => false,
    }
}

/// The block of a mark's key, if it is one.
fn marked_block(key: &Key) -> Option<Ulid>
    ensures mark { IfSome result (λ ulid. key.now ≡ Key.Mark ulid) }
    ensures none { result ≡ None → (ulid : ℕ) → key.now ≢ Key.Mark ulid }
{
    match key {
        Key::Mark(ulid) => Some(*ulid),
        Key::Meta(_) => None,
        Key::Index(_) => None,
        Key::Segment(_, _) => None,
    }
}

/// How the rule on marks refuses an entry, if it does.
pub(crate) fn mark_breach(
    alloc: Global,
    entry: &Entry,
    rules: &Rules,
) -> Result<Option<(u64, u64)>, NoMemory>
    ensures { IfOk result (λ told. (setting : Setting) (journal before : List Entry)
        → setting.script.rules ≡ rules.now
        → IsTold (Refuses setting journal breaches.mark_time before entry.now) told) }
{
    match &entry.op {
        Op::Put(key, bytes) => {
            if marked_block(key).is_none() || !has_landed(&entry.reply) {
                return Ok(None);
            }
            late_mark(alloc, bytes.bytes(), entry.moment.ms, rules.ignore.ms)
        }
        _ => Ok(None),
    }
}

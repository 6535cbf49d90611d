//! What a row begins with: a world in which something was done, and the rules of its runs.
ghost use Rattle.std.specs.Prelude.{◌≡◌, ◌≤◌, IsTrue};
ghost use Rattle.bucket_core.specs.Contents.{IsKey};

use crate::names::{Named, text_of};
use crate::ops::op_of;
use crate::played::Played;
use crate::says::{cut, cut_at, limit_of, number_of, put, say, show};
use bucket_core::{Bucket, Fail, FailList, MemoryBucket};
use label_sets::Text;
use meta_fetcher::SyncRules;
use moment_core::{Partition, Rules, Span};
use std::alloc::Global;
use wire_bytes::Blob;
use world_core::{OpenRefusal, World};

/// A hand over a world in which the seat 0 did the operations of some texts: FAIL TICK NAME... Why there is none is printed.
pub(crate) fn hand_of(rt: &HostRuntime, objects: &[Named], setting: &str) -> Option<Played> {
    let (fail, rest) = cut(setting);
    let (tick, names) = cut(rest);
    let bucket = MemoryBucket::new(rt.alloc(), fails_of(rt.alloc(), fail));
    let Some(mut world) = opened(rt, bucket, tick) else {
        return None;
    };
    for name in names.split(' ') {
        for word in text_of(objects, name).split(' ') {
            do_word(rt.alloc(), objects, &mut world, word);
        }
    }
    Some(Played::new(rt.alloc(), world))
}

/// A world over a bucket. Why there is none is printed.
fn opened(rt: &HostRuntime, bucket: MemoryBucket, tick: &str) -> Option<World<MemoryBucket>> {
    let tick = Span {
        ms: u64::from(tick.parse::<u8>().unwrap_or(1)),
    };
    match World::open(rt.alloc(), bucket, tick) {
        Ok(world) => Some(world),
        Err((refusal, bucket)) => {
            drop(bucket);
            match refusal {
                OpenRefusal::NotEmpty(name) => {
                    put(rt, " not empty: ");
                    say(rt, name.as_str());
                }
                OpenRefusal::Failed => say(rt, " failed"),
                OpenRefusal::NoMemory => say(rt, " no memory"),
            }
            None
        }
    }
}

/// Does the operation of a word, as often as `*COUNT` behind it says.
fn do_word(alloc: Global, objects: &[Named], world: &mut World<MemoryBucket>, word: &str) {
    let (word, count) = word.split_once('*').unwrap_or((word, "1"));
    for _ in 0..count.parse::<u32>().unwrap_or(0) {
        if let Ok(op) = op_of(alloc, objects, word) {
            drop(world.act(0, op));
        }
    }
}

/// The calls that fail, with commas between: `5+` names the fifth call, which is done all the same, and `5-` one that is not done.
pub(crate) fn fails_of(alloc: Global, text: &str) -> FailList {
    let mut failing = FailList::new(alloc);
    for word in text.split(',') {
        let (number, landed) = match word.strip_suffix('+') {
            Some(number) => (number, true),
            None => (word.strip_suffix('-').unwrap_or(""), false),
        };
        if let Ok(call) = number.parse() {
            let _ = failing.push(Fail { call, landed });
        }
    }
    failing
}

/// Prints why no world is opened over a bucket that holds one byte under each of some keys: FAIL KEY...
pub(crate) fn print_opened(rt: &HostRuntime, text: &str) {
    let (fail, keys) = cut(text);
    let mut bucket = MemoryBucket::new(rt.alloc(), fails_of(rt.alloc(), fail));
    for key in keys.split(' ') {
        print_put(rt, &mut bucket, key);
    }
    if let Some(world) = opened(rt, bucket, "1") {
        drop(world);
        say(rt, " opened");
    }
}

fn print_put(rt: &HostRuntime, bucket: &mut MemoryBucket, key: &str) {
    if !is_key(key) {
        return put(rt, " no key");
    }
    match Blob::from_bytes(rt.alloc(), b"1") {
        Ok(bytes) => show(rt, &bucket.put(key, &bytes)),
        Err(_) => put(rt, " no memory"),
    }
}

fn is_key(key: &str) -> bool
    ensures { IsTrue result → IsKey key.now }
{
    match key.as_bytes() {
        [] => false,
        [first, ..] => *first != b'/',
    }
}

/// The rules of cleanings and compactions, with the one replica label `replica`: LIMIT,CONSISTENCY,DELETE,PARTIAL,RETENTION in
/// milliseconds, but for LIMIT, the names of a page. Where RETENTION is no number, blocks are kept for ever.
pub(crate) fn rules_of(alloc: Global, text: &str) -> Rules
    ensures { 1 ≤ result.page_limit }
{
    let (limit, rest) = cut_at(text, ',');
    let (consistency, rest) = cut_at(rest, ',');
    let (delete, rest) = cut_at(rest, ',');
    let (partial, retention) = cut_at(rest, ',');
    let mut rules = Rules::standard(alloc);
    if let Ok(name) = Text::from_str(alloc, "replica") {
        let _ = rules.replicas.push(name);
    }
    rules.consistency.ms = number_of(consistency);
    rules.delete.ms = number_of(delete);
    rules.partial.ms = number_of(partial);
    rules.retention = retention_of(retention);
    rules.page_limit = limit_of(limit);
    rules
}

/// How long blocks are kept, unless for ever.
pub(crate) fn retention_of(text: &str) -> Option<Span> {
    match text.parse() {
        Ok(ms) => Some(Span { ms }),
        Err(_) => None,
    }
}

/// The rules of a sync with pages of so many names, by which a block is kept at any age, and a marked one for a day.
pub(crate) fn sync_rules(page_limit: u32) -> SyncRules
    ensures { result.page_limit ≡ page_limit }
{
    SyncRules {
        consistency: Span { ms: 0 },
        mark_delay: Span { ms: 86_400_000 },
        page_limit,
        partition: Partition::all_times(),
    }
}

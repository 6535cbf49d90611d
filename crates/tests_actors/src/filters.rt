//! The filters of a view.
use crate::names::{Named, bytes_of};
use crate::planning::partition_of;
use crate::says::{cut, cut_at, number_of, put, say};
use crate::setting::retention_of;
use crate::told::print_blocks;
use base::TryCopy;
use block_meta::{DeletionMark, Meta};
use moment_core::{Moment, Span};
use std::alloc::Global;
use sync_filters::{Found, FoundList, consistent, in_partition, is_expired, uncovered, unmarked};

/// How old a block has to be, half an hour.
const DELAY: Span = Span { ms: 1_800_000 };

/// How old a mark has to be, a day.
const MARK_DELAY: Span = Span { ms: 86_400_000 };

/// Prints whether a filter keeps a block.
pub(crate) fn print_kept(rt: &HostRuntime, objects: &[Named], word: &str, text: &str) {
    let (block, rest) = cut(text);
    match found_of(rt.alloc(), objects, block) {
        Some(found) => {
            let kept = match word {
                "young" => consistent(&found, DELAY),
                "marked" => unmarked(&found, MARK_DELAY),
                "expiring" => !is_expired(&found.meta, retention_of(rest), found.meta_read),
                _ => in_partition(&found.meta, &partition_of(rest)),
            };
            drop(found);
            say(rt, if kept { " kept" } else { " dropped" });
        }
        None => say(rt, " no block"),
    }
}

/// A copy of the block of a word: META,MARK,READ, where both were read at that millisecond.
pub(crate) fn found_of(alloc: Global, objects: &[Named], word: &str) -> Option<Found> {
    let (meta, rest) = cut_at(word, ',');
    let (mark, ms) = cut_at(rest, ',');
    let mark = DeletionMark::read(alloc, bytes_of(objects, mark)).ok();
    let Ok(meta) = Meta::read(alloc, bytes_of(objects, meta)) else {
        drop(mark);
        return None;
    };
    let read = Moment { ms: number_of(ms) };
    let found = Found {
        ulid: meta.ulid,
        mark,
        mark_read: read,
        meta,
        meta_read: read,
    };
    let copy = found.copy();
    drop(found);
    copy.ok()
}

/// The blocks of some words. What is none is left out.
pub(crate) fn blocks_of(alloc: Global, objects: &[Named], text: &str) -> FoundList {
    let mut found = FoundList::new(alloc);
    for word in text.split(' ') {
        if let Some(block) = found_of(alloc, objects, word) {
            let _ = found.push(block);
        }
    }
    found
}

/// Tells the blocks that are kept from those that others cover.
pub(crate) fn print_split(rt: &HostRuntime, objects: &[Named], text: &str) {
    match uncovered(rt.alloc(), blocks_of(rt.alloc(), objects, text)) {
        Ok((kept, covered)) => {
            print_blocks(rt, " kept", &kept);
            drop(kept);
            print_blocks(rt, ", covered", &covered);
            drop(covered);
            say(rt, "");
        }
        Err(_) => put(rt, " no memory"),
    }
}

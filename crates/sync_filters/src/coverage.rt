//! Which blocks are superfluous, since another one has all of their sources: the inputs of a compaction until a
//! cleaning deletes them (Thanos: deduplication filter). To compare each with each would take the square of their
//! number.

ghost use Rattle.std.specs.Prelude.{◌≡◌, ◌==◌, ◌&&◌, pos, not, map, length, IfOk};
ghost use Rattle.std.specs.List.{filter, list_any};
ghost use Rattle.std.specs.List.Sorted.{IsStrictlyIncreasing, IsPermutation, IsNonDecreasingBy, IsSortedBy};
ghost use Rattle.std.specs.Ordering.{int_eq};
ghost use Rattle.base.specs.Lists.{is_one_of};
ghost use Rattle.sync_filters.specs.Filters.{is_better, is_covered as is_covered_by, has_more as has_more_than, has_all as has_each, Splits};
ghost use Rattle.sync_filters.specs.Holders.{AreHolders, comes_before, covers_at, digest_alone, each_source, mark_at};

use crate::digest::{digest, has_bits, mark};
use crate::holders::{Holder, by_digest, by_source, fewest_larger, holders_of};
use crate::{Found, FoundList};
use base::NoMemory;
use block_meta::Meta;
use std::alloc::Global;
use std::collections::VecDeque;
use ulid_core::Ulid;

/// Tells whether one block makes another superfluous: no sample of either was dropped, it has all sources of the other,
/// and it has more of them, or as many and the smaller ULID.
pub fn better(one: &Meta, other: &Meta) -> bool
    ensures { result ≡ is_better one.now other.now }
{
    is_whole(one)
        && is_whole(other)
        && has_more(one, other)
        && has_all(one.sources.members(), other.sources.members())
}

/// Whether no sample of the block was dropped.
pub(crate) fn is_whole(meta: &Meta) -> bool
    ensures { result ≡ int_eq meta.now.resolution (pos 0) }
{
    meta.resolution == 0
}

fn has_more(one: &Meta, other: &Meta) -> bool
    ensures { result ≡ has_more_than one.now other.now }
{
    let (many, few) = (one.sources.len(), other.sources.len());
    few < many || many == few && one.ulid < other.ulid
}

fn has_all(many: &[Ulid], few: &[Ulid]) -> bool
    requires { IsStrictlyIncreasing many.now }
    ensures { result ≡ has_each many.now few.now }
{
    few.iter().all(|ulid| has(many, *ulid))
}

fn has(ulids: &[Ulid], ulid: Ulid) -> bool
    requires { IsStrictlyIncreasing ulids.now }
    ensures { result ≡ is_one_of ulids.now ulid }
{
    ulids.binary_search(&ulid).is_ok()
}

/// Splits blocks into those that are kept and those that another one of them covers, each ascending by ULID.
///
/// Blocks are looked up by their sources. One that covers another has the same sources, and then a digest of them leads to it; or
/// it has more, and then it is among the larger blocks that have a source of the other: that source is taken which the fewest have.
/// So the time is that of sorting all sources, and of comparing a block with these few. It grows beyond that only where each source
/// of many blocks is one of many larger blocks too, of which none covers them; and then each of those is told by 128 bits, but for a
/// few that happen to have them all.
pub fn uncovered(alloc: Global, found: FoundList) -> Result<(FoundList, FoundList), NoMemory>
    ensures { IfOk result (λ split. Splits found split.0 split.1) }
{
    let listed = ascending(found)?;
    let covered = covered_places(alloc, &listed)?;
    split(alloc, listed, &covered)
}

/// The blocks ascending by ULID.
fn ascending(found: FoundList) -> Result<Vec<Found>, NoMemory>
    ensures same { IfOk result (λ listed. IsPermutation found listed.items) }
    ensures ascend { IfOk result (λ listed. IsNonDecreasingBy (λ block. block.ulid) listed.items) }
{
    let mut listed = found.into_vec();
    listed.sort_by_key(|block| block.ulid)?;
    Ok(listed)
}

/// For each block whether another one covers it.
fn covered_places(alloc: Global, listed: &[Found]) -> Result<Vec<bool>, NoMemory>
    ensures { IfOk result (λ covered. covered.items ≡ map (is_covered_by listed.now) listed.now) }
{
    let equals = by_digest(alloc, listed)?;
    let holders = by_source(alloc, listed)?;
    let marks = marks_of(alloc, listed)?;
    let mut covered = Vec::new(alloc);
    for block in listed {
        covered.push(is_covered(listed, &equals, &holders, &marks, block))?;
    }
    Ok(covered)
}

/// The mark of each block's sources.
fn marks_of(alloc: Global, listed: &[Found]) -> Result<Vec<u128>, NoMemory>
    ensures { IfOk result (λ made. made.items ≡ map mark_at listed.now) }
{
    let mut made = Vec::new(alloc);
    for block in listed {
        made.push(mark_of(block))?;
    }
    Ok(made)
}

fn mark_of(block: &Found) -> u128
    ensures { result ≡ mark_at block.now }
{
    mark(block.meta.sources.members())
}

fn is_covered(
    listed: &[Found],
    equals: &[Holder],
    holders: &[Holder],
    marks: &[u128],
    block: &Found,
) -> bool
    requires equals { AreHolders digest_alone (length listed.now) listed.now equals.now }
    requires equals_sorted { IsSortedBy comes_before equals.now }
    requires holders { AreHolders each_source (length listed.now) listed.now holders.now }
    requires holders_sorted { IsSortedBy comes_before holders.now }
    requires marks { marks.now ≡ map mark_at listed.now }
    ensures { result ≡ is_covered_by listed.now block.now }
{
    is_whole(&block.meta) && is_covered_by_some(listed, equals, holders, marks, block)
}

fn is_covered_by_some(
    listed: &[Found],
    equals: &[Holder],
    holders: &[Holder],
    marks: &[u128],
    block: &Found,
) -> bool
    requires equals { AreHolders digest_alone (length listed.now) listed.now equals.now }
    requires equals_sorted { IsSortedBy comes_before equals.now }
    requires holders { AreHolders each_source (length listed.now) listed.now holders.now }
    requires holders_sorted { IsSortedBy comes_before holders.now }
    requires marks { marks.now ≡ map mark_at listed.now }
    ensures { result ≡ is_covered_by listed.now block.now }
{
    let sources = block.meta.sources.members();
    let mark = mark_of(block);
    is_covered_by_one(
        listed,
        marks,
        holders_of(equals, digest(sources)),
        mark,
        block,
    ) || is_covered_by_one(listed, marks, fewest_larger(holders, sources), mark, block)
}

fn is_covered_by_one(
    listed: &[Found],
    marks: &[u128],
    few: &[Holder],
    mark: u128,
    block: &Found,
) -> bool
    requires marks { marks.now ≡ map mark_at listed.now }
    requires mark { mark ≡ mark_at block.now }
    ensures { result ≡ list_any (λ holder. covers_at listed.now block.now holder.place) few.now }
{
    for holder in few {
        if covers(listed, marks, holder, mark, block) {
            return true;
        }
    }
    false
}

/// Whether a holder's block covers another. Most that do not lack one of its bits, which is quickly told.
fn covers(listed: &[Found], marks: &[u128], holder: &Holder, mark: u128, block: &Found) -> bool
    requires marks { marks.now ≡ map mark_at listed.now }
    requires mark { mark ≡ mark_at block.now }
    ensures { result ≡ covers_at listed.now block.now holder.now.place }
{
    match marks.get(holder.place) {
        Some(theirs) => covers_if(listed, holder.place, block, has_bits(*theirs, mark)),
        None => false,
    }
}

fn covers_if(listed: &[Found], place: usize, block: &Found, likely: bool) -> bool
    ensures { result ≡ (likely && covers_at listed.now block.now place) }
{
    likely && covers_there(listed, place, block)
}

fn covers_there(listed: &[Found], place: usize, block: &Found) -> bool
    ensures { result ≡ covers_at listed.now block.now place }
{
    match listed.get(place) {
        Some(other) => better(&other.meta, &block.meta),
        None => false,
    }
}

fn split(
    alloc: Global,
    listed: Vec<Found>,
    covered: &[bool],
) -> Result<(FoundList, FoundList), NoMemory>
    requires { covered.now ≡ map (is_covered_by listed.items) listed.items }
    ensures kept { IfOk result
        (λ split. split.0 ≡ filter (λ block. not (is_covered_by listed.items block)) listed.items) }
    ensures covered { IfOk result
        (λ split. split.1 ≡ filter (is_covered_by listed.items) listed.items) }
{
    let mut kept = FoundList::new(alloc);
    let mut left = FoundList::new(alloc);
    let mut rest = VecDeque::from_vec(listed);
    for is_left in covered {
        let Some(block) = rest.pop_front() else {
            unreachable!()
        };
        if *is_left {
            left.push(block)?;
        } else {
            kept.push(block)?;
        }
    }
    Ok((kept, left))
}

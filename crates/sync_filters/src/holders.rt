//! Blocks under each of their sources, and under a digest of all, so that the few that may cover a block are found by
//! halving. Whether one does is asked of its sources, so digests that happen to be equal change no answer.

ghost use Rattle.std.specs.Prelude.{◌≡◌, ◌≤◌, ◌-◌, ◌++◌, true, false, length, map, take, drop, IfOk, OnOk, nat_lt, nat_le};
ghost use Rattle.std.specs.List.Sorted.{IsSortedBy, IsPermutation, IsPartitionPoint};
ghost use Rattle.sync_filters.specs.Holders.{AreHolders, HasHoldersOf, HasLargerOf, HasLarger, comes_before, compare_holders as order_of_holders, holder, holders_at, is_larger, each_source, digest_alone};

use crate::Found;
use crate::coverage::is_whole;
use crate::digest::{digest, number_of};
use base::NoMemory;
use std::alloc::Global;
use std::cmp::Ordering;
use ulid_core::Ulid;

/// A number under which a block is looked up, how many sources the block has, and its place.
#[derive(Clone, Copy)]
pub(crate) struct Holder {
    pub(crate) key: u128,
    pub(crate) count: usize,
    pub(crate) place: usize,
}

/// The blocks of which no sample was dropped, under each of their sources.
pub(crate) fn by_source(alloc: Global, listed: &[Found]) -> Result<Vec<Holder>, NoMemory>
    ensures complete { IfOk result
        (λ made. AreHolders each_source (length listed.now) listed.now made.items) }
    ensures sorted { IfOk result (λ made. IsSortedBy comes_before made.items) }
{
    let mut made = Vec::new(alloc);
    for (place, block) in listed.iter().enumerate() {
        add_sources(&mut made, place, block)?;
    }
    sort(&mut made)?;
    Ok(made)
}

fn add_sources(made: &mut Vec<Holder>, place: usize, block: &Found) -> Result<(), NoMemory>
    ensures { OnOk result
        (made.new.items ≡ made.old.items ++ holders_at each_source place block.now) }
{
    if !is_whole(&block.meta) {
        return Ok(());
    }
    add_each(made, place, block.meta.sources.members())
}

fn add_each(made: &mut Vec<Holder>, place: usize, sources: &[Ulid]) -> Result<(), NoMemory>
    ensures { OnOk result (made.new.items
        ≡ made.old.items ++ map (λ source. holder source (length sources.now) place) sources.now) }
{
    for source in sources {
        made.push(Holder {
            key: number_of(*source),
            count: sources.len(),
            place,
        })?;
    }
    Ok(())
}

/// The blocks of which no sample was dropped, under a digest of their sources.
pub(crate) fn by_digest(alloc: Global, listed: &[Found]) -> Result<Vec<Holder>, NoMemory>
    ensures complete { IfOk result
        (λ made. AreHolders digest_alone (length listed.now) listed.now made.items) }
    ensures sorted { IfOk result (λ made. IsSortedBy comes_before made.items) }
{
    let mut made = Vec::new(alloc);
    for (place, block) in listed.iter().enumerate() {
        add_digest(&mut made, place, block)?;
    }
    sort(&mut made)?;
    Ok(made)
}

fn add_digest(made: &mut Vec<Holder>, place: usize, block: &Found) -> Result<(), NoMemory>
    ensures { OnOk result
        (made.new.items ≡ made.old.items ++ holders_at digest_alone place block.now) }
{
    if !is_whole(&block.meta) {
        return Ok(());
    }
    let sources = block.meta.sources.members();
    made.push(Holder {
        key: digest(sources),
        count: sources.len(),
        place,
    })?;
    Ok(())
}

fn sort(made: &mut Vec<Holder>) -> Result<(), NoMemory>
    ensures same { OnOk result (IsPermutation made.old.items made.new.items) }
    ensures sorted { OnOk result (IsSortedBy comes_before made.new.items) }
{
    made.sort_by(|one, other| compare(one, other))?;
    Ok(())
}

fn compare(one: &Holder, other: &Holder) -> Ordering
    ensures { result ≡ order_of_holders one.now other.now }
{
    one.key.cmp(&other.key).then(other.count.cmp(&one.count))
}

/// Blocks with more sources, all that have all of these among them: the larger holders of that source which has the fewest.
pub(crate) fn fewest_larger<'a>(holders: &'a [Holder], sources: &[Ulid]) -> &'a [Holder]
    requires { IsSortedBy comes_before holders.now }
    ensures { HasLarger holders.now sources.now result.now }
{
    let mut few = holders;
    for source in sources {
        if few.is_empty() {
            return few;
        }
        let found = larger_of(holders, number_of(*source), sources.len());
        if found.len() < few.len() {
            few = found;
        }
    }
    few
}

/// The holders of a number that have more sources than so many.
fn larger_of(holders: &[Holder], key: u128, least: usize) -> &[Holder]
    requires { IsSortedBy comes_before holders.now }
    ensures { HasLargerOf holders.now least key result.now }
{
    between(
        holders,
        first_of(holders, key),
        end_of_larger(holders, key, least),
    )
}

/// The holders of a number.
pub(crate) fn holders_of(holders: &[Holder], key: u128) -> &[Holder]
    requires { IsSortedBy comes_before holders.now }
    ensures { HasHoldersOf holders.now key result.now }
{
    between(holders, first_of(holders, key), end_of(holders, key))
}

/// The holders from one place up to another; none where that one is not behind.
fn between(holders: &[Holder], low: usize, high: usize) -> &[Holder]
    requires { high ≤ length holders.now }
    ensures { result.now ≡ take (high - low) (drop low holders.now) }
{
    if low < high {
        &holders[low..high]
    } else {
        &holders[..0]
    }
}

/// Where the holders of a number begin.
fn first_of(holders: &[Holder], key: u128) -> usize
    requires { IsSortedBy comes_before holders.now }
    ensures bound { result ≤ length holders.now }
    ensures point { IsPartitionPoint (λ one. nat_lt one.key key ≡ true)
        (λ one. nat_lt one.key key ≡ false) holders.now result }
{
    holders.partition_point(|one| one.key < key)
}

/// Where those end that have more sources than so many.
fn end_of_larger(holders: &[Holder], key: u128, least: usize) -> usize
    requires { IsSortedBy comes_before holders.now }
    ensures bound { result ≤ length holders.now }
    ensures point { IsPartitionPoint (λ one. is_larger key least one ≡ true)
        (λ one. is_larger key least one ≡ false) holders.now result }
{
    holders.partition_point(|one| one.key < key || one.key == key && least < one.count)
}

/// Where the holders of a number end.
fn end_of(holders: &[Holder], key: u128) -> usize
    requires { IsSortedBy comes_before holders.now }
    ensures bound { result ≤ length holders.now }
    ensures point { IsPartitionPoint (λ one. nat_le one.key key ≡ true)
        (λ one. nat_le one.key key ≡ false) holders.now result }
{
    holders.partition_point(|one| one.key <= key)
}

//! Stretches of time at multiples of a length, as the levels of Prometheus' compaction have them: blocks of one stretch
//! become one block, which again lies within a stretch of each greater length.

ghost use Rattle.std.specs.Prelude.{◌≡◌, ◌≤◌, ◌+ℤ◌, ◌<ℤ◌, ◌≤ℤ◌, neg_ℤ, pos, ◌^◌, ℤ, [], List, map, length, take, drop, IfOk, MatchOption};
ghost use Rattle.block_meta.specs.declared.meta.Meta.{Meta};
ghost use Rattle.label_sets.specs.Limits.{time_limit};
ghost use Rattle.group_planner.specs.Members.{ulids_of as ulids_of_all};
ghost use Rattle.group_planner.specs.Runs.{IsLongestRun};
ghost use Rattle.group_planner.specs.Parts.{start_of, fits as fits_range, fits_at as fits_range_at, IsStart, IsNextPart, NoneFits, AreParts};

use crate::members::ulids_of;
use crate::{MetaList, UlidListList};
use base::NoMemory;
use block_meta::Meta;
use std::alloc::Global;

/// The parts of a range: the longest runs of blocks that lie within one and the same stretch of this length, which begins at a
/// multiple of it. Blocks that lie within no such stretch are in no part.
pub fn split_by_range(alloc: Global, metas: &MetaList, range: i64) -> Result<UlidListList, NoMemory>
    requires { pos 0 <ℤ range }
    ensures found { (parts : List (List Meta)) × AreParts range metas.now parts
        × IfOk result (λ made. made ≡ map ulids_of_all parts) }
    ensures only { (one other : List (List Meta)) → AreParts range metas.now one
        → AreParts range metas.now other → one ≡ other }

    // Where a stretch begins.
    ensures starts { (time : ℤ) → IsStart range time (start_of range time) }
{
    ulids_of_parts(alloc, metas.members(), range)
}

fn ulids_of_parts(alloc: Global, metas: &[Meta], range: i64) -> Result<UlidListList, NoMemory>
    requires { pos 0 <ℤ range }
    ensures { IfOk result (λ made. (parts : List (List Meta))
        × AreParts range metas.now parts × (made ≡ map ulids_of_all parts)) }
{
    let mut made = UlidListList::new(alloc);
    let mut left = metas;
    while let Some((part, behind)) = next_part(left, range) {
        made.push(ulids_of(alloc, part)?)?;
        left = behind;
    }
    Ok(made)
}

/// The first part, and the blocks behind it.
pub(crate) fn next_part(metas: &[Meta], range: i64) -> Option<(&[Meta], &[Meta])>
    requires { pos 0 <ℤ range }
    ensures { MatchOption result (NoneFits range metas.now)
        (λ next. IsNextPart range metas.now next.0.now next.1.now) }
{
    for (place, meta) in metas.iter().enumerate() {
        if fits(meta, range) {
            let left = metas.split_at(place).1;
            let count = part_length(left, range, start_of(meta, range));
            return Some(left.split_at(count));
        }
    }
    None
}

/// How many blocks from the front on lie within the stretch that begins there.
fn part_length(metas: &[Meta], range: i64, start: i128) -> usize
    requires { pos 0 <ℤ range }
    ensures within { result ≤ length metas.now }
    ensures longest { IsLongestRun (λ before meta. fits_range_at range start meta) []
        (take result metas.now) (drop result metas.now) }
{
    for (place, meta) in metas.iter().enumerate() {
        if !fits_at(meta, range, start) {
            return place;
        }
    }
    metas.len()
}

fn fits(meta: &Meta, range: i64) -> bool
    requires { pos 0 <ℤ range }
    ensures { result ≡ fits_range range meta.now }
{
    i128::from(meta.max_time) <= stretch_end(meta, range)
}

fn fits_at(meta: &Meta, range: i64, start: i128) -> bool
    requires { pos 0 <ℤ range }
    ensures { result ≡ fits_range_at range start meta.now }
{
    start_of(meta, range) == start && fits(meta, range)
}

/// The greatest multiple of the range that is at most the block's first time.
fn start_of(meta: &Meta, range: i64) -> i128
    requires { pos 0 <ℤ range }
    ensures value { result ≡ start_of range meta.now.min_time }
    ensures low { neg_ℤ (pos (2 ^ 64)) ≤ℤ result }
    ensures high { result ≤ℤ pos time_limit }
{
    i128::from(meta.min_time) - i128::from(meta.min_time.rem_euclid(range))
}

/// Where the stretch ends in which the block begins.
fn stretch_end(meta: &Meta, range: i64) -> i128
    requires { pos 0 <ℤ range }
    ensures { result ≡ start_of range meta.now.min_time +ℤ range }
{
    start_of(meta, range) + i128::from(range)
}

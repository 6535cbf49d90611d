//! Which blocks without overlaps are compacted: those of the shortest stretch that is due. It is due once its blocks
//! fill it, or once a later block begins behind them, so that no more is to be expected.

ghost use Rattle.std.specs.Prelude.{◌≡◌, ◌<ℤ◌, ◌-ℤ◌, int_le, pos, ℤ, List, All, IfOk, MatchOption, Some, None};
ghost use Rattle.std.specs.List.{find};
ghost use Rattle.std.specs.Option.{option_copied};
ghost use Rattle.block_meta.specs.declared.meta.Meta.{Meta};
ghost use Rattle.group_planner.specs.Members.{ulids_of as ulids_of_all};
ghost use Rattle.group_planner.specs.Parts.{AreParts};
ghost use Rattle.group_planner.specs.Selections.{Candidate, AreCandidates, is_worthwhile as is_worth, is_wanted, is_due as are_due, IsSelection};

use crate::MetaList;
use crate::members::ulids_of;
use crate::parts::next_part;
use base::NoMemory;
use block_meta::Meta;
use std::alloc::Global;
use ulid_core::UlidList;

/// The lengths of stretches in milliseconds: 2, 8, 48 and 336 hours.
const RANGES: [i64; 4] = [7_200_000, 28_800_000, 172_800_000, 1_209_600_000];

/// The first part of a range that has at least two blocks, and that fills its stretch or ends before the last block of all begins.
/// Smaller ranges come first. It is empty where there is no such part.
pub fn select(alloc: Global, metas: &MetaList) -> Result<UlidList, NoMemory>
    ensures found { (chosen : List Meta) × IsSelection metas.now chosen
        × IfOk result (λ made. made ≡ ulids_of_all chosen) }
    ensures only { (one other : List Meta) → IsSelection metas.now one
        → IsSelection metas.now other → one ≡ other }
{
    ulids_of(alloc, selection_in(metas.members()))
}

pub(crate) fn selection_in(metas: &[Meta]) -> &[Meta]
    ensures { IsSelection metas.now result.now }
{
    let Some(last) = metas.last() else {
        return metas;
    };
    match first_of_ranges(metas, &RANGES, last.min_time) {
        Some(part) => part,
        None => &metas[..0],
    }
}

/// The first worthwhile part, by range and then by place.
fn first_of_ranges<'a>(metas: &'a [Meta], ranges: &[i64], high: i64) -> Option<&'a [Meta]>
    requires { All (λ range. pos 0 <ℤ range) ranges.now }
    ensures { (candidates : List Candidate) × AreCandidates ranges.now metas.now candidates
        × MatchOption result (find (is_wanted high) candidates ≡ None)
        (λ part. (range : ℤ) × (find (is_wanted high) candidates
        ≡ Some (record { range = range; part = part.now }))) }
{
    for range in ranges {
        if let Some(part) = first_of_range(metas, *range, high) {
            return Some(part);
        }
    }
    None
}

fn first_of_range(metas: &[Meta], range: i64, high: i64) -> Option<&[Meta]>
    requires { pos 0 <ℤ range }
    ensures { (parts : List (List Meta)) × AreParts range metas.now parts
        × MatchOption result (find (is_worth range high) parts ≡ None)
        (λ part. find (is_worth range high) parts ≡ Some part.now) }
{
    let mut left = metas;
    while let Some((part, behind)) = next_part(left, range) {
        if is_worthwhile(part, range, high) {
            return Some(part);
        }
        left = behind;
    }
    None
}

fn is_worthwhile(part: &[Meta], range: i64, high: i64) -> bool
    ensures { result ≡ is_worth range high part.now }
{
    2 <= part.len() && is_due(part.first(), part.last(), range, high)
}

/// Whether blocks from the first to the last one fill the range, or end by that time.
fn is_due(first: Option<&Meta>, last: Option<&Meta>, range: i64, high: i64) -> bool
    ensures { result
        ≡ are_due range high (option_copied first.entry) (option_copied last.entry) }
{
    let Some(first) = first else {
        return false;
    };
    let Some(last) = last else {
        return false;
    };
    span(first, last) == i128::from(range) || ends_by(last, high)
}

fn span(first: &Meta, last: &Meta) -> i128
    ensures { result ≡ last.now.max_time -ℤ first.now.min_time }
{
    i128::from(last.max_time) - i128::from(first.min_time)
}

fn ends_by(meta: &Meta, time: i64) -> bool
    ensures { result ≡ int_le meta.now.max_time time }
{
    meta.max_time <= time
}

//! Blocks whose times overlap, as those of replicas do. They are planned before all others: only their merge removes
//! what they have twice (vertical compaction).

ghost use Rattle.std.specs.Prelude.{◌≡◌, ◌++◌, ◌≤◌, ◌<◌, ◌+◌, ◌==◌, [], if◌then◌else◌, int_lt, List, length, take, drop, IfOk};
ghost use Rattle.block_meta.specs.declared.meta.Meta.{Meta};
ghost use Rattle.group_planner.specs.Members.{ulids_of as ulids_of_all};
ghost use Rattle.group_planner.specs.Runs.{IsLongestRun};
ghost use Rattle.group_planner.specs.Overlaps.{IsEndOf, overlaps_as, IsOverlapPlan};

use crate::MetaList;
use crate::members::ulids_of;
use base::NoMemory;
use block_meta::{Meta, later_end};
use std::alloc::Global;
use ulid_core::UlidList;

/// The plan of overlaps: the first block that begins before an earlier one ends, with the block before it and with those that
/// follow as long as they overlap too. It is empty where no blocks overlap.
pub fn overlapping(alloc: Global, metas: &MetaList) -> Result<UlidList, NoMemory>
    ensures found { (plan : List Meta) × IsOverlapPlan metas.now plan
        × IfOk result (λ made. made ≡ ulids_of_all plan) }
    ensures only { (one other : List Meta) → IsOverlapPlan metas.now one
        → IsOverlapPlan metas.now other → one ≡ other }
{
    ulids_of(alloc, overlap_of(metas.members()))
}

pub(crate) fn overlap_of(metas: &[Meta]) -> &[Meta]
    ensures { IsOverlapPlan metas.now result.now }
{
    let [first, others @ ..] = metas else {
        return metas;
    };
    let (apart, end) = run_length(others, first.max_time, false);
    let (count, _end) = run_length(others.split_at(apart).1, end, true);
    overlap_at(metas, apart, count)
}

/// The block at a place with so many behind it, or no block where there is none behind it.
fn overlap_at(metas: &[Meta], place: usize, count: usize) -> &[Meta]
    requires { place + count < length metas.now }
    ensures { result.now ≡ (if count == 0 then [] else take (count + 1) (drop place metas.now)) }
{
    if count == 0 {
        &metas[..0]
    } else {
        &metas[place..place + count + 1]
    }
}

/// How many blocks from the front on overlap those before them, or how many do not; and where the latest of all those ends.
fn run_length(metas: &[Meta], end: i64, overlapping: bool) -> (usize, i64)
    ensures within { result.0 ≤ length metas.now }
    ensures longest { (before : List Meta) → IsEndOf before end
        → IsLongestRun (overlaps_as overlapping) before
        (take result.0 metas.now) (drop result.0 metas.now) }
    ensures end { (before : List Meta) → IsEndOf before end
        → IsEndOf (before ++ take result.0 metas.now) result.1 }
{
    let mut end = end;
    for (place, meta) in metas.iter().enumerate() {
        if overlaps(meta, end) != overlapping {
            return (place, end);
        }
        end = later_end(meta, end);
    }
    (metas.len(), end)
}

fn overlaps(meta: &Meta, end: i64) -> bool
    ensures { result ≡ int_lt meta.now.min_time end }
{
    meta.min_time < end
}

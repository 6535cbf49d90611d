ghost use Rattle.std.specs.Prelude.{◌≡◌, List, IfOk};
ghost use Rattle.block_meta.specs.declared.meta.Meta.{Meta};
ghost use Rattle.group_planner.specs.Members.{ulids_of as ulids_of_all};
ghost use Rattle.group_planner.specs.Plans.{IsPlan, without_last as all_but_last};

use crate::Group;
use crate::members::ulids_of;
use crate::overlap::overlap_of;
use crate::selection::selection_in;
use base::NoMemory;
use block_meta::Meta;
use std::alloc::Global;
use ulid_core::UlidList;

/// The blocks of a group that are compacted into one: those that overlap, or else what is selected of all but the last one, which
/// may still get neighbours. It is empty where nothing is to be compacted.
///
/// There is exactly one plan of the members.
pub fn plan(alloc: Global, group: &Group) -> Result<UlidList, NoMemory>
    ensures found { (plan : List Meta) × IsPlan group.now.members plan
        × IfOk result (λ made. made ≡ ulids_of_all plan) }
    ensures only { (one other : List Meta) → IsPlan group.now.members one
        → IsPlan group.now.members other → one ≡ other }
{
    ulids_of(alloc, planned_metas(group.members.members()))
}

/// The plan of a group's members, as the metas of its blocks. They stand next to each other among the members.
pub fn planned_metas(metas: &[Meta]) -> &[Meta]
    ensures { IsPlan metas.now result.now }
{
    let overlaps = overlap_of(metas);
    if overlaps.is_empty() {
        selection_in(without_last(metas))
    } else {
        overlaps
    }
}

fn without_last(metas: &[Meta]) -> &[Meta]
    ensures { result.now ≡ all_but_last metas.now }
{
    metas.split_at(metas.len().saturating_sub(1)).0
}

//! Which blocks belong together: those of one resolution whose external labels differ in replica labels alone. So the
//! blocks of replicas fall into one group, and become one block without them.

ghost use Rattle.std.specs.Prelude.{◌≡◌, ◌++◌, ◌∷◌, ◌&&◌, [], List, map, IfOk, OnOk};
ghost use Rattle.std.specs.List.Sorted.{IsSortedBy};
ghost use Rattle.std.specs.Ordering.{int_eq, is_eq};
ghost use Rattle.label_sets.specs.Labels.{compare_sets};
ghost use Rattle.group_planner.specs.Groups.{AreGroups};
ghost use Rattle.group_planner.specs.Cuts.{IsCut, CutsFurther, has_lesser_key};

use crate::MetaList;
use crate::keyed::{Keyed, metas_in_order, sort_by_key, with_keys};
use base::{List, NoMemory, TryCopy};
use block_meta::Meta;
use label_sets::{LabelSet, TextList};
use std::alloc::Global;
use sync_filters::FoundList;

/// Blocks of one resolution whose external labels, without the replica labels, are equal.
#[derive(Drop)]
pub struct Group {
    pub resolution: i64,
    pub labels: LabelSet,
    pub members: MetaList,
}

impl TryCopy for Group {
    fn copy(&self) -> Result<Self, NoMemory> {
        Ok(Group {
            resolution: self.resolution,
            labels: self.labels.copy()?,
            members: self.members.copy()?,
        })
    }
}

/// Groups of blocks.
pub type GroupList = List<Group>;

/// The groups of blocks, by ascending resolution and labels. The members of each ascend by their first time, and then by their
/// ULID. No group is empty, and each block is in exactly one.
pub fn groups(alloc: Global, metas: &FoundList, replicas: &TextList) -> Result<GroupList, NoMemory>
    ensures found { (all : List Group)
        × AreGroups replicas.now (map (λ block. block.meta) metas.now) all
        × IfOk result (λ made. made ≡ all) }
    ensures only { (one other : List Group)
        → AreGroups replicas.now (map (λ block. block.meta) metas.now) one
        → AreGroups replicas.now (map (λ block. block.meta) metas.now) other → one ≡ other }
{
    let members = metas_in_order(alloc, metas.members())?;
    let mut keyed = with_keys(alloc, members, replicas)?;
    sort_by_key(&mut keyed)?;
    cut(alloc, keyed)
}

/// Cuts blocks where their key changes.
fn cut(alloc: Global, keyed: Vec<Keyed>) -> Result<GroupList, NoMemory>
    requires { IsSortedBy has_lesser_key keyed.items }
    ensures { IfOk result (IsCut keyed.items) }
{
    let mut groups = Vec::new(alloc);
    for next in keyed {
        add(alloc, &mut groups, next)?;
    }
    Ok(GroupList::from_vec(groups))
}

/// Adds a block to the last group, or to a new one behind it.
fn add(alloc: Global, groups: &mut Vec<Group>, next: Keyed) -> Result<(), NoMemory>
    ensures { OnOk result (CutsFurther groups.old.items next groups.new.items) }
{
    let Some(last) = groups.pop() else {
        groups.push(new_group(alloc, next)?)?;
        return Ok(());
    };
    if has_key(&last, &next) {
        groups.push(with_member(last, next.meta)?)?;
    } else {
        groups.push(last)?;
        groups.push(new_group(alloc, next)?)?;
    }
    Ok(())
}

fn has_key(group: &Group, keyed: &Keyed) -> bool
    ensures { result ≡ (int_eq group.now.resolution keyed.now.resolution
        && is_eq (compare_sets group.now.labels keyed.now.labels)) }
{
    group.resolution == keyed.resolution && group.labels == keyed.labels
}

fn new_group(alloc: Global, keyed: Keyed) -> Result<Group, NoMemory>
    ensures { IfOk result (λ made. made ≡ record {
      resolution = keyed.resolution;
      labels = keyed.labels;
      members = keyed.meta ∷ [];
    }) }
{
    let Keyed {
        resolution,
        labels,
        meta,
    } = keyed;
    let mut members = MetaList::new(alloc);
    members.push(meta)?;
    Ok(Group {
        resolution,
        labels,
        members,
    })
}

fn with_member(group: Group, meta: Meta) -> Result<Group, NoMemory>
    ensures { IfOk result (λ made. made ≡ record group { members = group.members ++ meta ∷ [] }) }
{
    let Group {
        resolution,
        labels,
        mut members,
    } = group;
    members.push(meta)?;
    Ok(Group {
        resolution,
        labels,
        members,
    })
}

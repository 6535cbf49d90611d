//! Blocks with what their group is told by. They are put in the order of time first and then, keeping that, in the
//! order of groups, so that each group stands together with its members as the planner asks for them.

ghost use Rattle.std.specs.Prelude.{◌≡◌, map, IfOk, OnOk};
ghost use Rattle.std.specs.List.Sorted.{IsSortedBy, IsStableBy, IsPermutation};
ghost use Rattle.std.specs.Ordering.{int_cmp, ordering_then};
ghost use Rattle.base.specs.Ordered.{in_order};
ghost use Rattle.label_sets.specs.Finals.{without};
ghost use Rattle.group_planner.specs.Groups.{comes_before, compare_members as order_of_members, compare_keys as order_of_keys};
ghost use Rattle.group_planner.specs.Cuts.{with_key as keyed_meta, key_of_keyed, has_lesser_key};

use base::{NoMemory, TryCopy};
use block_meta::Meta;
use label_sets::{LabelSet, TextList, reduced};
use std::alloc::Global;
use std::cmp::Ordering;
use sync_filters::Found;

/// A block and what its group is told by.
#[derive(Drop)]
pub(crate) struct Keyed {
    pub(crate) resolution: i64,
    pub(crate) labels: LabelSet,
    pub(crate) meta: Meta,
}

/// Copies of the metas in the order of members.
pub(crate) fn metas_in_order(alloc: Global, found: &[Found]) -> Result<Vec<Meta>, NoMemory>
    ensures { IfOk result (λ made. made.items
        ≡ in_order comes_before (map (λ block. block.meta) found.now)) }
{
    let mut metas = copies(alloc, found)?;
    sort_members(&mut metas)?;
    Ok(metas)
}

fn copies(alloc: Global, found: &[Found]) -> Result<Vec<Meta>, NoMemory>
    ensures { IfOk result (λ made. made.items ≡ map (λ block. block.meta) found.now) }
{
    let mut made = Vec::new(alloc);
    for block in found {
        made.push(block.meta.copy()?)?;
    }
    Ok(made)
}

fn sort_members(metas: &mut Vec<Meta>) -> Result<(), NoMemory>
    ensures { OnOk result (metas.new.items ≡ in_order comes_before metas.old.items) }
{
    metas.sort_by(|one, other| compare_members(one, other))?;
    Ok(())
}

fn compare_members(one: &Meta, other: &Meta) -> Ordering
    ensures { result ≡ order_of_members one.now other.now }
{
    one.min_time
        .cmp(&other.min_time)
        .then(one.ulid.cmp(&other.ulid))
}

/// The metas with their keys.
pub(crate) fn with_keys(
    alloc: Global,
    metas: Vec<Meta>,
    replicas: &TextList,
) -> Result<Vec<Keyed>, NoMemory>
    ensures { IfOk result (λ made. made.items ≡ map (keyed_meta replicas.now) metas.items) }
{
    let mut made = Vec::new(alloc);
    for meta in metas {
        made.push(with_key(alloc, meta, replicas)?)?;
    }
    Ok(made)
}

fn with_key(alloc: Global, meta: Meta, replicas: &TextList) -> Result<Keyed, NoMemory>
    ensures { IfOk result (λ made. made ≡ keyed_meta replicas.now meta) }
{
    Ok(Keyed {
        resolution: meta.resolution,
        labels: without_replicas(alloc, &meta.labels, replicas)?,
        meta,
    })
}

fn without_replicas(
    alloc: Global,
    labels: &LabelSet,
    replicas: &TextList,
) -> Result<LabelSet, NoMemory>
    ensures { IfOk result (λ made. made ≡ without replicas.now labels.now) }
{
    let external = LabelSet::empty(alloc);
    let made = reduced(alloc, labels, &external, replicas)?;
    Ok(made)
}

/// Puts blocks in the order of their keys. Those of one key keep their order.
pub(crate) fn sort_by_key(keyed: &mut Vec<Keyed>) -> Result<(), NoMemory>
    ensures sorted { OnOk result (IsSortedBy has_lesser_key keyed.new.items) }
    ensures stable { OnOk result (IsStableBy has_lesser_key keyed.old.items keyed.new.items) }
    ensures same { OnOk result (IsPermutation keyed.old.items keyed.new.items) }
{
    keyed.sort_by(|one, other| compare_keys(one, other))?;
    Ok(())
}

fn compare_keys(one: &Keyed, other: &Keyed) -> Ordering
    ensures { result ≡ order_of_keys (key_of_keyed one.now) (key_of_keyed other.now) }
{
    one.resolution
        .cmp(&other.resolution)
        .then(one.labels.compare(&other.labels))
}

//! The meta of a compacted block but for its counts, told by the metas of its inputs alone. By its sources, which are
//! those of all inputs, every later sync tells that it covers them.

ghost use Rattle.std.specs.Prelude.{◌≡◌, ◌≤◌, ◌∷◌, map, length, IfOk};
ghost use Rattle.std.specs.Int.{int_min};
ghost use Rattle.vertical_merge.specs.Compacted.{IsCompactedPlan, IsLeast, IsGreatest, IsGreatestLevel, parent_of as to_parent};

use base::{List, NoMemory, TryCopy};
use block_meta::{BlockPlan, Meta, Parent, ParentList, later_end, union_of_sources};
use label_sets::{LabelSet, Text};
use std::alloc::Global;
use ulid_core::Ulid;

/// What the block will say of itself that is compacted from blocks of one group.
pub fn compacted_plan(
    alloc: Global,
    inputs: &List<Meta>,
    ulid: Ulid,
    labels: &LabelSet,
) -> Result<BlockPlan, NoMemory>
    requires { 2 ≤ length inputs.now }
    ensures { IfOk result (IsCompactedPlan inputs.now ulid labels.now) }
{
    let [first, others @ ..] = inputs.members() else {
        unreachable!()
    };
    Ok(BlockPlan {
        ulid,
        min_time: least_time(first, others),
        max_time: greatest_time(first, others),
        level: greatest_level(first, others).saturating_add(1),
        sources: union_of_sources(alloc, inputs.members())?,
        parents: parents_of(alloc, inputs.members())?,
        labels: labels.copy()?,
        source: Text::from_str(alloc, "compactor")?,
    })
}

/// The earliest begin.
fn least_time(first: &Meta, others: &[Meta]) -> i64
    ensures { IsLeast (λ meta. meta.min_time) (first.now ∷ others.now) result }
{
    let mut least = first.min_time;
    for meta in others {
        least = earlier_begin(meta, least);
    }
    least
}

fn earlier_begin(meta: &Meta, time: i64) -> i64
    ensures { result ≡ int_min time meta.now.min_time }
{
    time.min(meta.min_time)
}

/// The latest end.
fn greatest_time(first: &Meta, others: &[Meta]) -> i64
    ensures { IsGreatest (λ meta. meta.max_time) (first.now ∷ others.now) result }
{
    let mut greatest = first.max_time;
    for meta in others {
        greatest = later_end(meta, greatest);
    }
    greatest
}

/// The greatest level.
fn greatest_level(first: &Meta, others: &[Meta]) -> u32
    ensures { IsGreatestLevel (first.now ∷ others.now) result }
{
    let mut greatest = first.level;
    for meta in others {
        greatest = meta.level.max(greatest);
    }
    greatest
}

fn parents_of(alloc: Global, metas: &[Meta]) -> Result<ParentList, NoMemory>
    ensures { IfOk result (λ made. made ≡ map to_parent metas.now) }
{
    let mut made = ParentList::new(alloc);
    for meta in metas {
        made.push(parent_of(meta))?;
    }
    Ok(made)
}

fn parent_of(meta: &Meta) -> Parent
    ensures { result ≡ to_parent meta.now }
{
    Parent {
        ulid: meta.ulid,
        min_time: meta.min_time,
        max_time: meta.max_time,
    }
}

//! The section `compaction` of a `meta.json`: how often samples were compacted, from which shipped blocks they come,
//! and which blocks went into the last round. The parents are written for whoever looks at a bucket; nothing is decided
//! by them.

ghost use Rattle.std.specs.Prelude.{◌≡◌, Ok, All, IfOk, OnOk};
ghost use Rattle.std.specs.List.Sorted.{IsStrictlyIncreasing};
ghost use Rattle.base.specs.Reading.{Gives};
ghost use Rattle.serde_json.specs.View.{view};
ghost use Rattle.block_meta.specs.declared.refusal.MetaRefusal.TheVariants.{NoMemory};
ghost use Rattle.block_meta.specs.MetaReading.{compaction_of, compaction_members_of, level_of};
ghost use Rattle.block_meta.specs.MetaValue.{compaction_value};
ghost use Rattle.block_meta.specs.Lawful.{ascending};
ghost use Rattle.block_meta.specs.Bounds.{FitsParent};

use crate::item::{read_list, write_list};
use crate::json_values::{as_unsigned, missing, needed_member, section, wrong_kind};
use crate::sources::read_sources;
use crate::{MetaRefusal, ParentList};
use serde_json::{Map, Value, put};
use std::alloc::{AllocError, Global};
use ulid_core::UlidList;

/// Where a block came from.
#[derive(Drop)]
pub(crate) struct Compaction {
    pub(crate) level: u32,
    pub(crate) sources: UlidList,
    pub(crate) parents: ParentList,
}

impl Compaction {
    #[tactic(auto, unfolding(crate::specs::MetaReading::compaction_of))]
    pub(crate) fn read(alloc: Global, meta: &Value) -> Result<Compaction, MetaRefusal>
        ensures gives { Gives NoMemory (λ made. made) result (compaction_of (view meta.now)) }
        ensures increasing { IfOk result (λ made. IsStrictlyIncreasing made.sources) }
    {
        match section(alloc, meta, "compaction")? {
            Some(compaction) => Compaction::read_members(alloc, compaction),
            None => Err(missing(alloc, "level")),
        }
    }

    #[tactic(auto, unfolding(crate::specs::MetaReading::compaction_members_of))]
    fn read_members(alloc: Global, compaction: &Value) -> Result<Compaction, MetaRefusal>
        ensures gives { Gives NoMemory (λ made. made) result
            (compaction_members_of (view compaction.now)) }
        ensures increasing { IfOk result (λ made. IsStrictlyIncreasing made.sources) }
    {
        Ok(Compaction {
            level: read_level(alloc, compaction)?,
            sources: read_sources(alloc, compaction)?,
            parents: read_list(alloc, compaction, "parents")?,
        })
    }
}

#[tactic(auto, unfolding(crate::specs::MetaReading::level_of))]
fn read_level(alloc: Global, compaction: &Value) -> Result<u32, MetaRefusal>
    ensures { Gives NoMemory (λ level. level) result (level_of (view compaction.now)) }
{
    let number = as_unsigned(alloc, needed_member(alloc, compaction, "level")?, "level")?;
    if number < LEVEL_LIMIT {
        Ok(number as u32)
    } else {
        Err(wrong_kind(alloc, "level"))
    }
}

/// The least number that is no level.
const LEVEL_LIMIT: u64 = 1 << 32;

/// The member `compaction`. No parents are left out.
#[tactic(auto, unfolding(crate::specs::MetaValue::compaction_value), using(crate::proofs::Again::compaction_again, crate::proofs::Again::compaction_again_alone))]
pub(crate) fn write_compaction(
    alloc: Global,
    level: u32,
    sources: &UlidList,
    parents: &ParentList,
) -> Result<Value, AllocError>
    ensures value { IfOk result (λ v. view v
        ≡ compaction_value level sources.now parents.now) }
    ensures again { OnOk result
        (compaction_members_of (compaction_value level sources.now parents.now)
        ≡ Ok (record { level = level; sources = ascending sources.now; parents = parents.now })) }
    ensures fit { OnOk result (All FitsParent parents.now) }
{
    let mut members = Map::new(alloc);
    put(&mut members, alloc, "level", Value::from(level))?;
    if parents.is_empty() {
        put(&mut members, alloc, "sources", write_list(alloc, sources)?)?;
        Ok(Value::Object(members))
    } else {
        put(&mut members, alloc, "parents", write_list(alloc, parents)?)?;
        put(&mut members, alloc, "sources", write_list(alloc, sources)?)?;
        Ok(Value::Object(members))
    }
}

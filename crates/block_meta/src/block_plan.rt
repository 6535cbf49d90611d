ghost use Rattle.std.specs.Prelude.{◌≡◌, [], ◌∷◌, IfOk};
ghost use Rattle.std.specs.List.Sorted.{IsStrictlyIncreasing};
ghost use Rattle.block_meta.specs.Lawful.{AreLawfulTimes};

use crate::ParentList;
use base::{NoMemory, TryCopy};
use label_sets::{LabelSet, Text};
use std::alloc::Global;
use ulid_core::{Ulid, UlidList};

/// What a block that is still to be built will say of itself.
#[derive(Drop)]
pub struct BlockPlan {
    pub ulid: Ulid,
    pub min_time: i64,
    /// The first time after the block's samples.
    pub max_time: i64,
    pub level: u32,
    pub sources: UlidList,
    pub parents: ParentList,
    /// The external labels.
    pub labels: LabelSet,
    /// The kind of program that makes the block.
    pub source: Text,
    pub ghost times: { AreLawfulTimes min_time max_time },
    pub ghost distinct: { IsStrictlyIncreasing sources },
}

impl TryCopy for BlockPlan {
    fn copy(&self) -> Result<Self, NoMemory> {
        Ok(BlockPlan {
            ulid: self.ulid,
            min_time: self.min_time,
            max_time: self.max_time,
            level: self.level,
            sources: self.sources.copy()?,
            parents: self.parents.copy()?,
            labels: self.labels.copy()?,
            source: self.source.copy()?,
        })
    }
}

/// The sources of a block that was compacted from no other: itself alone.
pub fn own_sources(alloc: Global, ulid: Ulid) -> Result<UlidList, NoMemory>
    ensures value { IfOk result (λ sources. sources ≡ ulid ∷ []) }
    ensures increasing { IfOk result (λ sources. IsStrictlyIncreasing sources) }
{
    let mut sources = UlidList::new(alloc);
    sources.push(ulid)?;
    Ok(sources)
}

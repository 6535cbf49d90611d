ghost use Rattle.std.specs.Prelude.{◌≡◌};

use crate::MetaRefusal;
use crate::item::Item;
use crate::json_values::{as_signed, needed_member, ulid, wrong_kind};
use crate::sources::write_ulid;
use base::{List, NoMemory, TryCopy};
use serde_json::{Map, Value, put};
use std::alloc::{AllocError, Global};
use ulid_core::Ulid;

/// A block that this one was compacted from, with its times.
#[derive(Clone, Copy, Debug, PartialEq, Eq)]
pub struct Parent {
    pub ulid: Ulid,
    pub min_time: i64,
    pub max_time: i64,
}

impl TryCopy for Parent {
    fn copy(&self) -> Result<Self, NoMemory> {
        Ok(*self)
    }
}

/// Parents in the order in which a meta lists them.
pub type ParentList = List<Parent>;

impl Item for Parent {
    ghost use Rattle.block_meta.specs.Bounds.{FitsParent};
    ghost use Rattle.block_meta.specs.MetaReading.{parent_of};
    ghost use Rattle.block_meta.specs.MetaValue.{parent_value};

    ghost reads = { parent_of };

    ghost written = { parent_value };

    ghost fits = { FitsParent };

    #[tactic(auto, unfolding(crate::specs::MetaReading::parent_of, crate::specs::Members::of_kind))]
    fn read(alloc: Global, value: &Value, list: &str) -> Result<Self, MetaRefusal> {
        if !value.is_object() {
            return Err(wrong_kind(alloc, list));
        }
        Ok(Parent {
            ulid: ulid(alloc, needed_member(alloc, value, "ulid")?, "ulid")?,
            min_time: as_signed(alloc, needed_member(alloc, value, "minTime")?, "minTime")?,
            max_time: as_signed(alloc, needed_member(alloc, value, "maxTime")?, "maxTime")?,
        })
    }

    #[tactic(auto, unfolding(crate::specs::MetaValue::parent_value), using(crate::proofs::Again::parent_again))]
    fn write(&self, alloc: Global) -> Result<Value, AllocError> {
        let mut parent = Map::new(alloc);
        put(&mut parent, alloc, "maxTime", Value::from(self.max_time))?;
        put(&mut parent, alloc, "minTime", Value::from(self.min_time))?;
        put(&mut parent, alloc, "ulid", write_ulid(alloc, self.ulid)?)?;
        Ok(Value::Object(parent))
    }
}

//! The object that retires a block before it is deleted, so that whoever still reads the block has time to end.
//! Compactions write it and cleanings go by its age, which is counted in whole seconds, as in Thanos.

ghost use Rattle.std.specs.Prelude.{◌≡◌, ◌<◌, ◌≤◌, length, IfOk};
ghost use Rattle.block_meta.specs.Lawful.{deletion_limit};

use crate::MetaRefusal;
use crate::item::Item;
use crate::json_values::{
    VERSION, as_unsigned, needed_member, read_object, ulid, version, wrong_kind,
};
use crate::sources::write_ulid;
use crate::thanos::read_text_or_empty;
use base::{NoMemory, TryCopy};
use label_sets::Text;
use serde_json::{Map, Value, put};
use std::alloc::{AllocError, Global};
use ulid_core::Ulid;
use wire_bytes::Blob;

/// That a block is to be deleted, as its `deletion-mark.json`.
#[derive(Drop)]
pub struct DeletionMark {
    pub id: Ulid,
    /// When the block was marked, in seconds since 1970.
    pub deletion_time: u64,
    /// Why, as `compacted` or `covered`.
    pub details: Text,
    pub ghost early: { deletion_time < deletion_limit },
}

/// 2^46
const LIMIT: u64 = 0x4000_0000_0000;

impl DeletionMark {
    ghost use Rattle.std.specs.Prelude.{Ok, OnOk};
    ghost use Rattle.base.specs.Reading.{Gives};
    ghost use Rattle.serde_json.specs.View.{view};
    ghost use Rattle.block_meta.specs.declared.refusal.MetaRefusal.TheVariants.{NoMemory as WithoutMemory};
    ghost use Rattle.block_meta.specs.MetaFields.{MarkFields, mark_fields_of};
    ghost use Rattle.block_meta.specs.MetaReading.{deletion_time_of, mark_of, mark_of_text};
    ghost use Rattle.block_meta.specs.MetaText.{IsMarkText};
    ghost use Rattle.block_meta.specs.MetaValue.{mark_value, mark_text};

    /// Reads a `deletion-mark.json` of Thanos.
    pub fn read(alloc: Global, bytes: &[u8]) -> Result<DeletionMark, MetaRefusal>
        ensures gives { Gives WithoutMemory mark_fields_of result (mark_of_text bytes.now) }
        ensures found { IfOk result (λ mark. IsMarkText bytes.now (mark_fields_of mark)) }
        ensures only { (mark : MarkFields) → IsMarkText bytes.now mark
            → mark_of_text bytes.now ≡ Ok mark }

        // Its text has no more bytes than the whole.
        ensures few { IfOk result (λ mark. length mark.details ≤ length bytes.now) }
    {
        DeletionMark::of_text(alloc, bytes)
    }

    #[tactic(auto, unfolding(crate::specs::MetaReading::mark_of_text))]
    fn of_text(alloc: Global, bytes: &[u8]) -> Result<DeletionMark, MetaRefusal>
        ensures { Gives WithoutMemory mark_fields_of result (mark_of_text bytes.now) }
    {
        let value = read_object(alloc, bytes)?;
        DeletionMark::of_value(alloc, &value)
    }

    #[tactic(auto, unfolding(crate::specs::MetaReading::mark_of))]
    fn of_value(alloc: Global, value: &Value) -> Result<DeletionMark, MetaRefusal>
        ensures { Gives WithoutMemory mark_fields_of result (mark_of (view value.now)) }
    {
        version(needed_member(alloc, value, "version")?)?;
        Ok(DeletionMark {
            id: ulid(alloc, needed_member(alloc, value, "id")?, "id")?,
            deletion_time: DeletionMark::read_time(alloc, value)?,
            details: read_text_or_empty(alloc, value, "details")?,
        })
    }

    #[tactic(auto, unfolding(crate::specs::MetaReading::deletion_time_of))]
    fn read_time(alloc: Global, mark: &Value) -> Result<u64, MetaRefusal>
        ensures gives { Gives WithoutMemory (λ time. time) result
            (deletion_time_of (view mark.now)) }
        ensures early { IfOk result (λ time. time < deletion_limit) }
    {
        let time = as_unsigned(
            alloc,
            needed_member(alloc, mark, "deletion_time")?,
            "deletion_time",
        )?;
        if time < LIMIT {
            Ok(time)
        } else {
            Err(wrong_kind(alloc, "deletion_time"))
        }
    }

    /// The text of a `deletion-mark.json`: compact JSON with ascending keys.
    pub fn write(&self, alloc: Global) -> Result<Blob, NoMemory>
        ensures text { IfOk result (λ blob. blob ≡ mark_text (mark_fields_of self.now)) }
        ensures again { OnOk result (mark_of_text (mark_text (mark_fields_of self.now))
            ≡ Ok (mark_fields_of self.now)) }
        ensures lawful { OnOk result
            (IsMarkText (mark_text (mark_fields_of self.now)) (mark_fields_of self.now)) }
    {
        let value = self.to_value(alloc)?;
        Ok(Blob::from_vec(value.to_vec(alloc)?))
    }

    #[tactic(auto, unfolding(crate::specs::MetaValue::mark_value))]
    fn to_value(&self, alloc: Global) -> Result<Value, AllocError>
        ensures value { IfOk result (λ v. view v ≡ mark_value (mark_fields_of self.now)) }
        ensures again { OnOk result (mark_of (mark_value (mark_fields_of self.now))
            ≡ Ok (mark_fields_of self.now)) }
    {
        let mut mark = Map::new(alloc);
        put(
            &mut mark,
            alloc,
            "deletion_time",
            Value::from(self.deletion_time),
        )?;
        put(&mut mark, alloc, "details", self.details.write(alloc)?)?;
        put(&mut mark, alloc, "id", write_ulid(alloc, self.id)?)?;
        put(&mut mark, alloc, "version", Value::from(VERSION))?;
        Ok(Value::Object(mark))
    }
}

impl TryCopy for DeletionMark {
    fn copy(&self) -> Result<Self, NoMemory> {
        Ok(DeletionMark {
            id: self.id,
            deletion_time: self.deletion_time,
            details: self.details.copy()?,
        })
    }
}

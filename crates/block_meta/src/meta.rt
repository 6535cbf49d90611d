//! What a block says of itself: all that a sync, or the planner of a compaction, knows of it, as neither of them reads
//! an index.

ghost use Rattle.std.specs.Prelude.{◌≡◌, ◌<ℤ◌, ◌≤ℤ◌, pos, neg_ℤ, ◌^◌};
ghost use Rattle.std.specs.Int.{int_max};
ghost use Rattle.std.specs.List.Sorted.{IsStrictlyIncreasing};
ghost use Rattle.block_meta.specs.Lawful.{AreLawfulTimes};

use crate::compaction::{Compaction, write_compaction};
use crate::item::{Item, write_list};
use crate::json_values::{VERSION, needed_member, read_object, ulid, version};
use crate::sources::write_ulid;
use crate::stats::{Stats, write_stats};
use crate::thanos::{Thanos, write_downsample, write_labels};
use crate::times::Times;
use crate::{FileSizeList, MetaRefusal, ParentList};
use base::{NoMemory, TryCopy};
use label_sets::{LabelSet, Text, TextList};
use serde_json::{Map, Value, put};
use std::alloc::{AllocError, Global};
use ulid_core::{Ulid, UlidList};
use wire_bytes::Blob;

/// What a block says of itself, as its `meta.json`. Times are in milliseconds since 1970.
#[derive(Drop)]
pub struct Meta {
    pub ulid: Ulid,
    pub min_time: i64,
    /// The first time after the block's samples.
    pub max_time: i64,
    pub series: u64,
    pub samples: u64,
    pub chunks: u64,
    /// How often the block's samples were compacted; a shipped block has 1.
    pub level: u32,
    /// The blocks whose samples it holds.
    pub sources: UlidList,
    pub parents: ParentList,
    /// The external labels.
    pub labels: LabelSet,
    /// In milliseconds; 0 where no sample was dropped.
    pub resolution: i64,
    /// The kind of program that made the block.
    pub source: Text,
    pub files: FileSizeList,
    pub segment_files: TextList,
    pub ghost times: { AreLawfulTimes min_time max_time },
    pub ghost distinct: { IsStrictlyIncreasing sources },
}

impl Meta {
    ghost use Rattle.std.specs.Prelude.{[], Ok, IfOk, OnOk, FitsSigned, length};
    ghost use Rattle.std.specs.Int.{w64};
    ghost use Rattle.base.specs.Reading.{Gives};
    ghost use Rattle.serde_json.specs.View.{view};
    ghost use Rattle.block_meta.specs.declared.refusal.MetaRefusal.TheVariants.{NoMemory as WithoutMemory};
    ghost use Rattle.block_meta.specs.Bounds.{HasFew, HasFittingNumbers};
    ghost use Rattle.block_meta.specs.MetaFields.{MetaFields, fields_of};
    ghost use Rattle.block_meta.specs.MetaReading.{meta_of, meta_of_text, labels_from};
    ghost use Rattle.block_meta.specs.MetaText.{IsMetaText};
    ghost use Rattle.block_meta.specs.MetaValue.{meta_text, meta_value, thanos_value, label_members};

    /// Reads a `meta.json` of Prometheus or of Thanos.
    pub fn read(alloc: Global, bytes: &[u8]) -> Result<Meta, MetaRefusal>
        ensures gives { Gives WithoutMemory fields_of result (meta_of_text bytes.now) }
        ensures found { IfOk result (λ meta. IsMetaText bytes.now (fields_of meta)) }
        ensures only { (meta : MetaFields) → IsMetaText bytes.now meta
            → meta_of_text bytes.now ≡ Ok meta }

        // No list has more members than the text has bytes, and no text in it more bytes.
        ensures few { IfOk result (λ meta. HasFew (fields_of meta) (length bytes.now)) }
    {
        Meta::of_text(alloc, bytes)
    }

    #[tactic(auto, unfolding(crate::specs::MetaReading::meta_of_text))]
    fn of_text(alloc: Global, bytes: &[u8]) -> Result<Meta, MetaRefusal>
        ensures { Gives WithoutMemory fields_of result (meta_of_text bytes.now) }
    {
        let value = read_object(alloc, bytes)?;
        Meta::of_value(alloc, &value)
    }

    #[tactic(auto, unfolding(crate::specs::MetaReading::meta_of))]
    fn of_value(alloc: Global, value: &Value) -> Result<Meta, MetaRefusal>
        ensures { Gives WithoutMemory fields_of result (meta_of (view value.now)) }
    {
        version(needed_member(alloc, value, "version")?)?;
        let ulid = ulid(alloc, needed_member(alloc, value, "ulid")?, "ulid")?;
        let times = Times::read(alloc, value)?;
        let stats = Stats::read(alloc, value)?;
        let compaction = Compaction::read(alloc, value)?;
        let thanos = Thanos::read(alloc, value)?;
        Ok(Meta {
            ulid,
            min_time: times.min,
            max_time: times.max,
            series: stats.series,
            samples: stats.samples,
            chunks: stats.chunks,
            level: compaction.level,
            sources: compaction.sources,
            parents: compaction.parents,
            labels: thanos.labels,
            resolution: thanos.resolution,
            source: thanos.source,
            files: thanos.files,
            segment_files: thanos.segment_files,
        })
    }

    /// The text of a `meta.json`: compact JSON with ascending keys.
    pub fn write(&self, alloc: Global) -> Result<Blob, NoMemory>
        ensures text { IfOk result (λ blob. blob ≡ meta_text (fields_of self.now)) }
        ensures again { OnOk result (meta_of_text (meta_text (fields_of self.now))
            ≡ Ok (fields_of self.now)) }
        ensures lawful { OnOk result
            (IsMetaText (meta_text (fields_of self.now)) (fields_of self.now)) }
        ensures numbers { OnOk result (HasFittingNumbers (fields_of self.now)) }
    {
        let value = self.to_value(alloc)?;
        Ok(Blob::from_vec(value.to_vec(alloc)?))
    }

    #[tactic(auto, unfolding(crate::specs::MetaValue::meta_value))]
    fn to_value(&self, alloc: Global) -> Result<Value, AllocError>
        ensures value { IfOk result (λ v. view v ≡ meta_value (fields_of self.now)) }
        ensures again { OnOk result (meta_of (meta_value (fields_of self.now))
            ≡ Ok (fields_of self.now)) }
        ensures numbers { OnOk result (HasFittingNumbers (fields_of self.now)) }
    {
        let mut meta = Map::new(alloc);
        let compaction = write_compaction(alloc, self.level, &self.sources, &self.parents)?;
        put(&mut meta, alloc, "compaction", compaction)?;
        put(&mut meta, alloc, "maxTime", Value::from(self.max_time))?;
        put(&mut meta, alloc, "minTime", Value::from(self.min_time))?;
        let stats = write_stats(alloc, self.series, self.samples, self.chunks)?;
        put(&mut meta, alloc, "stats", stats)?;
        put(&mut meta, alloc, "thanos", self.write_thanos(alloc)?)?;
        put(&mut meta, alloc, "ulid", write_ulid(alloc, self.ulid)?)?;
        put(&mut meta, alloc, "version", Value::from(VERSION))?;
        Ok(Value::Object(meta))
    }

    #[tactic(auto, unfolding(crate::specs::MetaValue::thanos_value))]
    fn write_thanos(&self, alloc: Global) -> Result<Value, AllocError>
        ensures value { IfOk result (λ v. view v ≡ thanos_value (fields_of self.now)) }
        ensures labels_again { OnOk result
            (labels_from [] (label_members self.now.labels) ≡ Ok self.now.labels) }
        ensures fits { OnOk result (FitsSigned w64 self.now.resolution) }
    {
        let mut thanos = Map::new(alloc);
        let downsample = write_downsample(alloc, self.resolution)?;
        put(&mut thanos, alloc, "downsample", downsample)?;
        put(&mut thanos, alloc, "files", write_list(alloc, &self.files)?)?;
        let labels = write_labels(alloc, &self.labels)?;
        put(&mut thanos, alloc, "labels", labels)?;
        let segments = write_list(alloc, &self.segment_files)?;
        put(&mut thanos, alloc, "segment_files", segments)?;
        put(&mut thanos, alloc, "source", self.source.write(alloc)?)?;
        put(&mut thanos, alloc, "version", Value::from(VERSION))?;
        Ok(Value::Object(thanos))
    }
}

impl TryCopy for Meta {
    fn copy(&self) -> Result<Self, NoMemory> {
        Ok(Meta {
            ulid: self.ulid,
            min_time: self.min_time,
            max_time: self.max_time,
            series: self.series,
            samples: self.samples,
            chunks: self.chunks,
            level: self.level,
            sources: self.sources.copy()?,
            parents: self.parents.copy()?,
            labels: self.labels.copy()?,
            resolution: self.resolution,
            source: self.source.copy()?,
            files: self.files.copy()?,
            segment_files: self.segment_files.copy()?,
        })
    }
}

/// The later of a time and a block's end.
pub fn later_end(meta: &Meta, time: i64) -> i64
    ensures { result ≡ int_max time meta.now.max_time }
{
    time.max(meta.max_time)
}

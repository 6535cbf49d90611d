//! The section `thanos` of a `meta.json`: external labels, resolution, and the files by name and size. A block straight
//! from a Prometheus server has none of it, so each member has a value that stands for its absence.

ghost use Rattle.std.specs.Prelude.{◌≡◌, ⊤, [], codes, Ok, MatchResult, IfOk, OnOk};
ghost use Rattle.base.specs.Reading.{Gives, Answers};
ghost use Rattle.serde_json.specs.Data.{string, object};
ghost use Rattle.serde_json.specs.View.{view, members_view};
ghost use Rattle.block_meta.specs.declared.refusal.MetaRefusal.TheVariants.{NoMemory};
ghost use Rattle.label_sets.specs.Labels.{IsLabelSet};
ghost use Rattle.block_meta.specs.Members.{or_absent, text_of, version_of, member_of};
ghost use Rattle.block_meta.specs.MetaFields.{no_thanos};
ghost use Rattle.block_meta.specs.MetaReading.{thanos_of, thanos_members_of, resolution_of, text_or_empty, labels_of, labels_from, label_added};
ghost use Rattle.block_meta.specs.MetaValue.{downsample_value, label_members};

use crate::item::{Item, read_list};
use crate::json_values::{as_signed, member, section, text, version, wrong_kind};
use crate::{FileSizeList, MetaRefusal};
use label_sets::{Label, LabelRefusal, LabelSet, Text, TextList};
use serde_json::{Map, Value, put};
use std::alloc::{AllocError, Global};

/// What the system adds to a meta of Prometheus.
#[derive(Drop)]
pub(crate) struct Thanos {
    pub(crate) labels: LabelSet,
    pub(crate) resolution: i64,
    pub(crate) source: Text,
    pub(crate) segment_files: TextList,
    pub(crate) files: FileSizeList,
}

impl Thanos {
    #[tactic(auto, unfolding(crate::specs::MetaReading::thanos_of))]
    pub(crate) fn read(alloc: Global, meta: &Value) -> Result<Thanos, MetaRefusal>
        ensures { Gives NoMemory (λ thanos. thanos) result (thanos_of (view meta.now)) }
    {
        match section(alloc, meta, "thanos")? {
            Some(thanos) => Thanos::read_members(alloc, thanos),
            None => Thanos::absent(alloc),
        }
    }

    /// What a meta has where it says nothing of it.
    #[tactic(auto, unfolding(crate::specs::MetaFields::no_thanos))]
    fn absent(alloc: Global) -> Result<Thanos, MetaRefusal>
        ensures { MatchResult result (λ thanos. thanos ≡ no_thanos) (λ e. e ≡ NoMemory) }
    {
        Ok(Thanos {
            labels: LabelSet::empty(alloc),
            resolution: 0,
            source: Text::from_str(alloc, "")?,
            segment_files: TextList::new(alloc),
            files: FileSizeList::new(alloc),
        })
    }

    #[tactic(auto, unfolding(crate::specs::MetaReading::thanos_members_of))]
    fn read_members(alloc: Global, thanos: &Value) -> Result<Thanos, MetaRefusal>
        ensures { Gives NoMemory (λ thanos. thanos) result (thanos_members_of (view thanos.now)) }
    {
        read_version(thanos)?;
        Ok(Thanos {
            labels: read_labels(alloc, thanos)?,
            resolution: read_resolution(alloc, thanos)?,
            source: read_text_or_empty(alloc, thanos, "source")?,
            segment_files: read_list(alloc, thanos, "segment_files")?,
            files: read_list(alloc, thanos, "files")?,
        })
    }
}

impl Item for Text {
    ghost reads = { text_of };

    ghost written = { string };

    ghost fits = { λ _. ⊤ };

    fn read(alloc: Global, value: &Value, list: &str) -> Result<Self, MetaRefusal> {
        text(alloc, value, list)
    }

    #[tactic(auto, unfolding(crate::specs::Members::text_of, crate::specs::Members::of_kind))]
    fn write(&self, alloc: Global) -> Result<Value, AllocError> {
        Value::try_from_str(alloc, self.as_str())
    }
}

fn read_version(thanos: &Value) -> Result<(), MetaRefusal>
    ensures { Answers (λ v. v) result
        (or_absent tt version_of (member_of (codes "version") (view thanos.now))) }
{
    match member(thanos, "version") {
        Some(value) => version(value),
        None => Ok(()),
    }
}

#[tactic(auto, unfolding(crate::specs::MetaReading::resolution_of))]
fn read_resolution(alloc: Global, thanos: &Value) -> Result<i64, MetaRefusal>
    ensures { Gives NoMemory (λ n. n) result (resolution_of (view thanos.now)) }
{
    let Some(downsample) = section(alloc, thanos, "downsample")? else {
        return Ok(0);
    };
    match member(downsample, "resolution") {
        Some(value) => as_signed(alloc, value, "resolution"),
        None => Ok(0),
    }
}

/// The text of that name, empty where it is absent.
#[tactic(auto, unfolding(crate::specs::MetaReading::text_or_empty))]
pub(crate) fn read_text_or_empty(
    alloc: Global,
    within: &Value,
    name: &str,
) -> Result<Text, MetaRefusal>
    ensures { Gives NoMemory (λ t. t) result (text_or_empty name.now (view within.now)) }
{
    match member(within, name) {
        Some(value) => text(alloc, value, name),
        None => Ok(Text::from_str(alloc, "")?),
    }
}

#[tactic(auto, unfolding(crate::specs::MetaReading::labels_of, crate::specs::Members::of_kind))]
fn read_labels(alloc: Global, thanos: &Value) -> Result<LabelSet, MetaRefusal>
    ensures { Gives NoMemory (λ labels. labels) result (labels_of (view thanos.now)) }
{
    match member(thanos, "labels") {
        Some(value) => match value.as_object() {
            Some(members) => add_labels(alloc, members),
            None => Err(wrong_kind(alloc, "labels")),
        },
        None => Ok(LabelSet::empty(alloc)),
    }
}

fn add_labels(alloc: Global, members: &Map<String, Value>) -> Result<LabelSet, MetaRefusal>
    ensures { Gives NoMemory (λ found. found) result
        (labels_from [] (members_view members.now.entries)) }
{
    let mut found = LabelSet::empty(alloc);
    for (name, member) in members.iter() {
        add_label(alloc, &mut found, name.as_str(), member)?;
    }
    Ok(found)
}

#[tactic(auto, unfolding(crate::specs::MetaReading::label_added))]
fn add_label(
    alloc: Global,
    labels: &mut LabelSet,
    name: &str,
    member: &Value,
) -> Result<(), MetaRefusal>
    ensures { Gives NoMemory (λ _. labels.new) result
        (label_added labels.old name.now (view member.now)) }
{
    let value = text(alloc, member, "labels")?;
    match labels.add(name, value.as_str()) {
        Ok(()) => Ok(()),
        Err(LabelRefusal::NoMemory) => Err(MetaRefusal::NoMemory),
        Err(_) => Err(MetaRefusal::BadLabels),
    }
}

/// The member `downsample`.
pub(crate) fn write_downsample(alloc: Global, resolution: i64) -> Result<Value, AllocError>
    ensures { IfOk result (λ v. view v ≡ downsample_value resolution) }
{
    let mut downsample = Map::new(alloc);
    put(
        &mut downsample,
        alloc,
        "resolution",
        Value::from(resolution),
    )?;
    Ok(Value::Object(downsample))
}

/// The member `labels`.
pub(crate) fn write_labels(alloc: Global, labels: &LabelSet) -> Result<Value, AllocError>
    ensures value { IfOk result (λ v. view v ≡ object (label_members labels.now)) }
    ensures again { OnOk result (labels_from [] (label_members labels.now) ≡ Ok labels.now) }
{
    Ok(Value::Object(write_members(alloc, labels.labels())?))
}

fn write_members(alloc: Global, labels: &[Label]) -> Result<Map<String, Value>, AllocError>
    requires { IsLabelSet labels.now }
    ensures { IfOk result (λ map. members_view map.entries ≡ label_members labels.now) }
{
    let mut members = Map::new(alloc);
    for label in labels {
        let value = Value::try_from_str(alloc, label.value.as_str())?;
        put(&mut members, alloc, label.name.as_str(), value)?;
    }
    Ok(members)
}

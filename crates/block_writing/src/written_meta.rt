//! What a written block says of itself.
ghost use Rattle.std.specs.Prelude.{◌≡◌, ◌≤◌, length, IfOk, OnOk};
ghost use Rattle.std.specs.List.{AllByRecursion};
ghost use Rattle.base.specs.Grammar.{IsBytes};
ghost use Rattle.block_keys.specs.Keys.{segment_limit};
ghost use Rattle.block_keys.specs.KeyText.{six_digits};
ghost use Rattle.block_meta.specs.MetaFields.{fields_of};
ghost use Rattle.block_writing.specs.Writing.{plan_fields};
ghost use Rattle.block_writing.specs.WrittenMeta.{segment_size, index_size, sizes_of, names_from, meta_with};

use crate::counts::Counts;
use base::NoMemory;
use block_keys::six_digits;
use block_meta::{BlockPlan, FileSize, FileSizeList, Meta};
use label_sets::{Text, TextList};
use std::alloc::Global;
use wire_bytes::Blob;

/// The name of the segment of a number.
fn segment_name(alloc: Global, number: u32) -> Result<Text, NoMemory>
    ensures { IfOk result (λ name. name ≡ six_digits number) }
{
    let digits = Vec::from_slice(alloc, &six_digits(number))?;
    Ok(Text::from_string(String::from_utf8(digits).unwrap()))
}

fn size_of_segment(alloc: Global, number: u32, segment: &[u8]) -> Result<FileSize, NoMemory>
    ensures size { IfOk result (λ size. size ≡ segment_size number segment.now) }
    ensures bytes { IsBytes segment.now }
{
    let name = segment_name(alloc, number)?;
    Ok(FileSize {
        path: Text::from_string(format!(in alloc; "chunks/{}", name.as_str())?),
        bytes: segment.len() as u64,
    })
}

fn size_of_index(alloc: Global, index: &[u8]) -> Result<FileSize, NoMemory>
    ensures size { IfOk result (λ size. size ≡ index_size index.now) }
    ensures bytes { IsBytes index.now }
{
    Ok(FileSize {
        path: Text::from_str(alloc, "index")?,
        bytes: index.len() as u64,
    })
}

/// The files of a block with their sizes. They are bytes, as all files are.
#[tactic(auto, unfolding(crate::specs::WrittenMeta::sizes_of))]
fn sizes_of(alloc: Global, segments: &[Blob], index: &Blob) -> Result<FileSizeList, NoMemory>
    requires { length segments.now ≤ segment_limit }
    ensures sizes { IfOk result (λ sizes. sizes ≡ sizes_of segments.now index.now) }
    ensures bytes { OnOk result (IsBytes index.now × AllByRecursion IsBytes segments.now) }
{
    let mut sizes = FileSizeList::new(alloc);
    for (place, segment) in segments.iter().enumerate() {
        sizes.push(size_of_segment(alloc, place as u32 + 1, segment.bytes())?)?;
    }
    sizes.push(size_of_index(alloc, index.bytes())?)?;
    Ok(sizes)
}

/// The names of so many segments.
fn names_of(alloc: Global, count: usize) -> Result<TextList, NoMemory>
    requires { count ≤ segment_limit }
    ensures { IfOk result (λ names. names ≡ names_from 1 count) }
{
    let mut names = TextList::new(alloc);
    for place in 0..count {
        names.push(segment_name(alloc, place as u32 + 1)?)?;
    }
    Ok(names)
}

/// What a block of these files says of itself.
#[tactic(auto, unfolding(crate::specs::WrittenMeta::meta_with))]
pub(crate) fn meta_of(
    alloc: Global,
    plan: BlockPlan,
    counts: Counts,
    index: &Blob,
    segments: &[Blob],
) -> Result<Meta, NoMemory>
    requires { length segments.now ≤ segment_limit }
    ensures meta { IfOk result (λ meta. fields_of meta
        ≡ meta_with (plan_fields plan) counts index.now segments.now) }
    ensures bytes { OnOk result (IsBytes index.now × AllByRecursion IsBytes segments.now) }
{
    let files = sizes_of(alloc, segments, index)?;
    let segment_files = names_of(alloc, segments.len())?;
    Ok(Meta {
        ulid: plan.ulid,
        min_time: plan.min_time,
        max_time: plan.max_time,
        series: counts.series,
        samples: counts.samples,
        chunks: counts.chunks,
        level: plan.level,
        sources: plan.sources,
        parents: plan.parents,
        labels: plan.labels,
        resolution: 0,
        source: plan.source,
        files,
        segment_files,
    })
}

//! The merge of blocks.
ghost use Rattle.std.specs.Prelude.{◌≡◌, ◌⊎◌, ℕ, ◌<◌, ◌≤◌, ◌^◌, [], map, length, sum_by, Err, IfOk, IfErr, OnOk};
ghost use Rattle.std.specs.List.{AllByRecursion};
ghost use Rattle.base.specs.Ordered.{Rises};
ghost use Rattle.base.specs.Lists.{joined};
ghost use Rattle.label_sets.specs.Labels.{IsLabelSet};
ghost use Rattle.index_v2.specs.LentLabels.{as_label};
ghost use Rattle.block_meta.specs.Lawful.{AreLawfulTimes};
ghost use Rattle.block_writing.specs.Put.{IsStored, IsAfterSeries, nothing_put};
ghost use Rattle.block_writing.specs.Writing.{plan_fields};
ghost use Rattle.block_writing.specs.Files.{HaveNoIndex};
ghost use Rattle.block_writing.specs.WrittenMeta.{IsWritten};
ghost use Rattle.block_content.specs.ContentReading.{fitted};
ghost use Rattle.block_content.specs.declared.check_refusal.CheckRefusal.{CheckRefusal};
ghost use Rattle.block_merging.specs.Inputs.{LiesWithin, IsFirstRefused};
ghost use Rattle.block_merging.specs.Placed.{chunk_of};
ghost use Rattle.block_merging.specs.MergedBlock.{IsMergeOf, HaveNoMerge};
ghost use Rattle.block_merging.specs.MergeSteps.{HasGroup, HasAll};
ghost use Rattle.block_merging.specs.Queues.{IsQueue, have_lesser_labels, lefts_in, chunks_of};

use crate::MergeRefusal;
use crate::group_taking::{next_group, take_group};
use crate::input_chunk::InputChunk;
use crate::queues::all_queues;
use crate::series_merge::merge_series;
use crate::series_queue::SeriesQueue;
use base::{NoMemory, TryCopy};
use block_meta::{BlockFiles, BlockPlan, BuildRefusal};
use block_writing::BlockWriter;
use index_v2::{LentLabel, set_of};
use label_sets::{LabelSet, TextList};
use std::alloc::Global;
use wire_bytes::Blob;

/// Merges blocks into the one of a plan. Of two blocks that have a sample under the same labels at one time the earlier one's
/// pattern stays. Each chunk of each block is tested before any is merged. Beside the blocks and the merge it holds one series
/// at a time: of each block the next one and its opened index, with the numbers of all its series in the order of their reduced
/// labels, and the samples of one run of chunks. While a block is tested it holds the series of its index.
pub fn merge_blocks(
    alloc: Global,
    plan: &BlockPlan,
    inputs: &[BlockFiles],
    replicas: &TextList,
) -> Result<BlockFiles, MergeRefusal>
    requires { AllByRecursion (LiesWithin plan.now) inputs.now }
    ensures merged { IfOk result (IsMergeOf plan.now replicas.now inputs.now) }

    // The first block that holds nothing that can be read decides, unless memory runs out.
    ensures refused { (number : ℕ) (cause : CheckRefusal)
        → result ≡ Err (MergeRefusal.Input number cause)
        → (place : ℕ) × IsFirstRefused inputs.now place cause × (number ≡ fitted place) }
    ensures refuses { (place : ℕ) (cause : CheckRefusal) → IsFirstRefused inputs.now place cause
        → (result ≡ Err (MergeRefusal.Input (fitted place) cause))
        ⊎ (result ≡ Err MergeRefusal.NoMemory) }

    // The merge is too large exactly where its index passes the greatest length, unless memory runs out.
    ensures too_large { result ≡ Err MergeRefusal.TooLarge
        → HaveNoMerge plan.now replicas.now inputs.now }
    ensures large { HaveNoMerge plan.now replicas.now inputs.now
        → (result ≡ Err MergeRefusal.TooLarge) ⊎ (result ≡ Err MergeRefusal.NoMemory) }
{
    let mut queues = all_queues(alloc, &plan.labels, replicas, inputs)?;
    let room = segment_bytes(inputs);
    let writer = merged_writer(alloc, plan, replicas, room, &mut queues)?;
    finish(writer)
}

/// How many bytes the segments of a block have.
fn bytes_of(segments: &[Blob]) -> usize
    ensures { result ≤ sum_by length segments.now }
{
    let mut bytes = 0usize;
    for segment in segments {
        bytes = bytes.saturating_add(segment.bytes().len());
    }
    bytes
}

/// How many bytes the segments of blocks have together.
fn segment_bytes(inputs: &[BlockFiles]) -> usize
    ensures { result ≤ sum_by (λ block. sum_by length block.segments) inputs.now }
{
    let mut bytes = 0usize;
    for block in inputs {
        bytes = bytes.saturating_add(bytes_of(block.segments.members()));
    }
    bytes
}

/// A writer that holds the merge of the series that are left, whose first segment begins with room for so many bytes.
fn merged_writer(
    alloc: Global,
    plan: &BlockPlan,
    replicas: &TextList,
    room: usize,
    queues: &mut Vec<SeriesQueue<'_>>,
) -> Result<BlockWriter, NoMemory>
    requires queues { AllByRecursion (IsQueue plan.now.labels replicas.now) queues.old.items }
    requires rise { AllByRecursion (Rises have_lesser_labels)
        (lefts_in plan.now.labels replicas.now queues.old.items) }
    requires stored { AllByRecursion (IsStored (plan_fields plan.now))
        (chunks_of (joined (lefts_in plan.now.labels replicas.now queues.old.items))) }
    ensures { IfOk result (HasAll (plan_fields plan.now)
        (joined (lefts_in plan.now.labels replicas.now queues.old.items))) }
{
    let mut writer = BlockWriter::with_room(alloc, plan.copy()?, room);
    put_groups(alloc, &mut writer, &plan.labels, replicas, queues)?;
    Ok(writer)
}

/// Puts the merge of the series that are left, one group of equal labels after another.
fn put_groups(
    alloc: Global,
    writer: &mut BlockWriter,
    external: &LabelSet,
    replicas: &TextList,
    queues: &mut Vec<SeriesQueue<'_>>,
) -> Result<(), NoMemory>
    requires queues { AllByRecursion (IsQueue external.now replicas.now) queues.old.items }
    requires rise { AllByRecursion (Rises have_lesser_labels)
        (lefts_in external.now replicas.now queues.old.items) }
    requires stored { AllByRecursion (IsStored writer.old.plan)
        (chunks_of (joined (lefts_in external.now replicas.now queues.old.items))) }
    requires times { AreLawfulTimes writer.old.plan.min_time writer.old.plan.max_time }
    requires nothing { writer.old ≡ nothing_put writer.old.plan }
    ensures { OnOk result (HasAll writer.old.plan
        (joined (lefts_in external.now replicas.now queues.old.items)) writer.new) }
{
    let mut label_room = Vec::new(alloc);
    let mut chunk_room = Vec::new(alloc);
    while let Some(labels) = next_group(external, replicas, queues.as_slice(), label_room)? {
        let lent = labels.as_slice();
        let chunks = take_group(alloc, external, replicas, queues, lent, chunk_room)?;
        let taken = chunks.as_slice();
        put_group(alloc, writer, lent, taken)?;
        label_room = labels;
        chunk_room = chunks;
    }
    Ok(())
}

/// Puts the merge of the chunks of series with equal labels, if there are any.
fn put_group(
    alloc: Global,
    writer: &mut BlockWriter,
    labels: &[LentLabel<'_>],
    chunks: &[InputChunk<'_>],
) -> Result<(), NoMemory>
    requires lawful { IsLabelSet (map as_label labels.now) }
    requires stored { AllByRecursion (IsStored writer.old.plan) (map chunk_of chunks.now) }
    requires times { AreLawfulTimes writer.old.plan.min_time writer.old.plan.max_time }
    requires nothing_left { writer.old.chunks ≡ [] }
    requires greater { IsAfterSeries writer.old.series (map as_label labels.now) }
    requires counted { writer.old.samples < 2 ^ 64 }
    ensures { OnOk result
        (HasGroup writer.old (map as_label labels.now) (map chunk_of chunks.now) writer.new) }
{
    if chunks.is_empty() {
        return Ok(());
    }
    merge_series(alloc, writer, set_of(alloc, labels)?, chunks)
}

/// Ends a writer.
fn finish(writer: BlockWriter) -> Result<BlockFiles, MergeRefusal>
    requires { writer.chunks ≡ [] }
    ensures written { IfOk result (IsWritten writer) }
    ensures refused { IfErr result (λ refusal. (refusal ≡ MergeRefusal.NoMemory)
        ⊎ ((refusal ≡ MergeRefusal.TooLarge) × HaveNoIndex writer.series)) }
    ensures refuses { HaveNoIndex writer.series → (result ≡ Err MergeRefusal.TooLarge)
        ⊎ (result ≡ Err MergeRefusal.NoMemory) }
{
    match writer.finish() {
        Ok(block) => Ok(block),
        Err(BuildRefusal::TooLarge) => Err(MergeRefusal::TooLarge),
        Err(BuildRefusal::NoMemory) => Err(MergeRefusal::NoMemory),
    }
}

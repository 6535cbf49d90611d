//! What becomes of the blocks that a compaction read.
ghost use Rattle.std.specs.Prelude.{◌≡◌, ◌≤◌, ℕ, List, length, map, slice_get, Some, IfOk};
ghost use Rattle.std.specs.List.{AllByRecursion, AllZip};
ghost use Rattle.base.specs.Grammar.{IsBytes};
ghost use Rattle.index_parts.specs.declared.index_series.IndexSeries.{IndexSeries};
ghost use Rattle.index_parts.specs.IndexFile.{IsIndex};
ghost use Rattle.block_content.specs.ContentReading.{fitted};
ghost use Rattle.block_content.specs.ContentRefusals.{RefusesContent};
ghost use Rattle.block_merging.specs.Inputs.{IsFirstRefused};
ghost use Rattle.compactor.specs.Inputs.{IsInput, HasNamed};
ghost use Rattle.vertical_merge.specs.Compacted.{IsCompactedPlan};
ghost use Rattle.compactor.specs.InputFiles.{numbers_of, AreFiles, AreNamed, IsShownBy, NamesChunk, IsPlaceOf};
ghost use Rattle.compactor.specs.Merges.{IsMerging, IsRefused};
ghost use Rattle.compactor.specs.declared.input.Input.{Input};

use crate::input::InputList;
use crate::input_files::{InputFiles, Numbers, all_files};
use base::{List, NoMemory, TryCopy};
use block_content::{CheckRefusal, read_index};
use block_merging::{MergeRefusal, merge_blocks};
use block_meta::{BlockFiles, BlockPlan};
use group_planner::MetaList;
use index_parts::ChunkPlace;
use index_v2::LentSeries;
use label_sets::{LabelSet, TextList};
use std::alloc::Global;
use ulid_core::Ulid;
use vertical_merge::compacted_plan;

/// What becomes of blocks that were read.
#[derive(Drop)]
pub enum Merging {
    /// They become this block.
    Merged(BlockFiles),
    /// What was read at the entry of this number is not as it may be.
    Refused(u64),
    /// The index of their merge would pass its greatest length.
    TooLarge,
}

/// Merges blocks that were read into one under a new ULID.
pub fn merge_inputs(
    alloc: Global,
    replicas: &TextList,
    labels: &LabelSet,
    ulid: Ulid,
    inputs: InputList,
) -> Result<Merging, NoMemory>
    requires many { 2 ≤ length inputs }
    requires named { AllByRecursion HasNamed inputs }
    ensures { IfOk result (IsMerging replicas.now ulid labels.now inputs) }
{
    let files = all_files(alloc, inputs)?;
    let merging = merge_files(alloc, replicas, labels, ulid, &files);
    drop(files);
    merging
}

/// Merges the files of blocks that were read.
fn merge_files(
    alloc: Global,
    replicas: &TextList,
    labels: &LabelSet,
    ulid: Ulid,
    files: &InputFiles,
) -> Result<Merging, NoMemory>
    requires many { 2 ≤ length files.now.blocks }
    requires named { AllZip AreNamed files.now.blocks files.now.numbers }
    ensures { (inputs : List Input) → AreFiles inputs files.now.blocks files.now.numbers
        → IfOk result (IsMerging replicas.now ulid labels.now inputs) }
{
    let plan = plan_of(alloc, files.blocks.members(), ulid, labels)?;
    let merged = merge_blocks(alloc, &plan, files.blocks.members(), replicas);
    drop(plan);
    match merged {
        Ok(block) => Ok(Merging::Merged(block)),
        Err(MergeRefusal::Input(place, cause)) => {
            let number = refused_at(alloc, &files.blocks, &files.numbers, place, cause)?;
            Ok(Merging::Refused(number))
        }
        Err(MergeRefusal::TooLarge) => Ok(Merging::TooLarge),
        Err(MergeRefusal::NoMemory) => Err(NoMemory),
    }
}

/// What the block will say of itself that these become.
fn plan_of(
    alloc: Global,
    blocks: &[BlockFiles],
    ulid: Ulid,
    labels: &LabelSet,
) -> Result<BlockPlan, NoMemory>
    requires many { 2 ≤ length blocks.now }
    ensures { IfOk result
        (IsCompactedPlan (map (λ block. block.meta) blocks.now) ulid labels.now) }
{
    let metas = metas_of(alloc, blocks)?;
    let plan = compacted_plan(alloc, &metas, ulid, labels);
    drop(metas);
    plan
}

fn metas_of(alloc: Global, blocks: &[BlockFiles]) -> Result<MetaList, NoMemory>
    ensures { IfOk result (λ made. made ≡ map (λ block. block.meta) blocks.now) }
{
    let mut made = MetaList::new(alloc);
    for block in blocks {
        made.push(block.meta.copy()?)?;
    }
    Ok(made)
}

/// The entry that shows why a block is refused, the first of these that is.
fn refused_at(
    alloc: Global,
    blocks: &List<BlockFiles>,
    numbers: &List<Numbers>,
    place: u32,
    cause: CheckRefusal,
) -> Result<u64, NoMemory>
    requires refused { (at : ℕ) × IsFirstRefused blocks.now at cause × (place ≡ fitted at) }
    requires named { AllZip AreNamed blocks.now numbers.now }
    ensures { IfOk result (λ number. (inputs : List Input) → AllZip IsInput inputs blocks.now
        → numbers.now ≡ map numbers_of inputs → IsRefused inputs blocks.now number) }
{
    // A number of 32 bits stands for itself below the greatest one. No memory holds so many blocks.
    if place == u32::MAX {
        return Err(NoMemory);
    }
    let Some(block) = blocks.get(place as usize) else {
        unreachable!();
    };
    let Some(read) = numbers.get(place as usize) else {
        unreachable!();
    };
    number_of(alloc, block, read, cause)
}

/// The entry at which the cause of a refusal was read: a chunk stands in its segment, and the index tells of all else.
fn number_of(
    alloc: Global,
    block: &BlockFiles,
    read: &Numbers,
    cause: CheckRefusal,
) -> Result<u64, NoMemory>
    requires refused { RefusesContent block.now cause }
    requires named { AreNamed block.now read.now }
    ensures { IfOk result (IsShownBy read.now block.now cause) }
{
    let CheckRefusal::BadChunk {
        series,
        chunk,
        cause: _,
    } = cause
    else {
        return Ok(read.index);
    };
    let place = place_of(alloc, block.index.bytes(), series, chunk)?;
    match read.segments.get(place.segment as usize) {
        Some(number) => Ok(*number),
        None => unreachable!(),
    }
}

/// The member of a list at a place, if there is one.
fn member_at(chunks: &[ChunkPlace], at: usize) -> Option<ChunkPlace>
    ensures { result ≡ slice_get chunks.now at }
{
    chunks.get(at).copied()
}

/// What is wanting where an index was read before.
fn only_memory(refusal: CheckRefusal) -> NoMemory
    requires { refusal ≡ CheckRefusal.NoMemory }
{
    match refusal {
        CheckRefusal::NoMemory => NoMemory,
        _ => unreachable!(),
    }
}

/// The series of an index that was read before.
fn read_again(alloc: Global, index: &[u8]) -> Result<List<LentSeries<'_>>, NoMemory>
    requires { (indexed : List IndexSeries) × IsIndex index.now indexed }
    ensures read { IfOk result (IsIndex index.now) }
    ensures bytes { IsBytes index.now }
{
    match read_index(alloc, index) {
        Ok(indexed) => Ok(indexed),
        Err(refusal) => Err(only_memory(refusal)),
    }
}

/// The place of a chunk of an index, by the numbers that a refusal gives of its series and of itself.
fn place_of(alloc: Global, index: &[u8], series: u32, chunk: u32) -> Result<ChunkPlace, NoMemory>
    requires { NamesChunk index.now series chunk }
    ensures place { IfOk result (IsPlaceOf index.now series chunk) }
    ensures bytes { IfOk result (λ place. IsBytes index.now) }
{
    // A number of 32 bits stands for itself below the greatest one. No memory holds an index of so many series or chunks.
    if series == u32::MAX || chunk == u32::MAX {
        return Err(NoMemory);
    }
    let indexed = read_again(alloc, index)?;
    let Some(one) = indexed.get(series as usize) else {
        unreachable!();
    };
    match member_at(one.chunks(), chunk as usize) {
        Some(place) => Ok(place),
        None => unreachable!(),
    }
}

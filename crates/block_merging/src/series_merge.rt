//! The merge of the chunks of one series.
ghost use Rattle.std.specs.Prelude.{◌≡◌, ◌≢◌, ◌<◌, ◌^◌, ◌++◌, ◌∷◌, [], List, map, length, IfOk, OnOk};
ghost use Rattle.std.specs.List.{AllByRecursion, AllZip};
ghost use Rattle.base.specs.Lists.{joined};
ghost use Rattle.label_sets.specs.declared.label.Label.{Label};
ghost use Rattle.label_sets.specs.declared.sample.Sample.{Sample};
ghost use Rattle.label_sets.specs.declared.series.Series.{Series};
ghost use Rattle.label_sets.specs.Triples.{triples_under};
ghost use Rattle.vertical_merge.specs.Merged.{IsMerge};
ghost use Rattle.xor_chunks.specs.Grammar.{IsText};
ghost use Rattle.xor_chunks.specs.Widths.{stored_filling};
ghost use Rattle.block_meta.specs.Lawful.{AreLawfulTimes};
ghost use Rattle.block_writing.specs.Put.{IsStored, IsAfterChunks, IsAfterSeries, with_chunk};
ghost use Rattle.block_writing.specs.Built.{StandsFor};
ghost use Rattle.block_merging.specs.Placed.{chunk_of, placed_chunk, AreByBegin};
ghost use Rattle.block_merging.specs.MergedSeries.{HasMerged};
ghost use Rattle.block_merging.specs.Steps.{IsReadable, run_in, HasRun, HasRuns, HasSwept};

use crate::input_chunk::InputChunk;
use crate::placed_chunk::{PlacedChunk, placed_chunks, sort_by_begin, sort_by_place};
use crate::runs::first_run;
use base::{List, NoMemory, TryCopy};
use block_writing::{BlockWriter, put_parts};
use label_sets::{LabelSet, Sample, Series, SeriesList};
use std::alloc::Global;
use vertical_merge::Merger;
use xor_chunks::{XorRefusal, append_stored};

/// Puts the merge of the chunks of one series, and ends it. The chunks stand in the order of their blocks, of which an earlier
/// one wins at a time that both have. The writer keeps the labels.
pub(crate) fn merge_series(
    alloc: Global,
    writer: &mut BlockWriter,
    labels: LabelSet,
    chunks: &[InputChunk<'_>],
) -> Result<(), NoMemory>
    requires some { chunks.now ≢ [] }
    requires stored { AllByRecursion (IsStored writer.old.plan) (map chunk_of chunks.now) }
    requires times { AreLawfulTimes writer.old.plan.min_time writer.old.plan.max_time }
    requires nothing_left { writer.old.chunks ≡ [] }
    requires greater { IsAfterSeries writer.old.series labels }
    requires counted { writer.old.samples < 2 ^ 64 }
    ensures { OnOk result (HasMerged writer.old labels (map chunk_of chunks.now) writer.new) }
{
    put_runs(alloc, writer, &labels, chunks)?;
    writer.series(labels)
}

fn put_runs(
    alloc: Global,
    writer: &mut BlockWriter,
    labels: &LabelSet,
    chunks: &[InputChunk<'_>],
) -> Result<(), NoMemory>
    requires stored { AllByRecursion (IsStored writer.old.plan) (map chunk_of chunks.now) }
    requires times { AreLawfulTimes writer.old.plan.min_time writer.old.plan.max_time }
    requires nothing_left { writer.old.chunks ≡ [] }
    requires counted { writer.old.samples < 2 ^ 64 }
    ensures { OnOk result (HasRuns writer.old labels.now (map chunk_of chunks.now) writer.new) }
{
    let mut placed = placed_chunks(alloc, chunks)?;
    sort_by_begin(&mut placed)?;
    put_sorted(alloc, writer, labels, placed.as_slice())
}

/// Puts what becomes of the runs of chunks that stand in the order of their begins.
fn put_sorted(
    alloc: Global,
    writer: &mut BlockWriter,
    labels: &LabelSet,
    sorted: &[PlacedChunk<'_>],
) -> Result<(), NoMemory>
    requires stored { AllByRecursion (IsStored writer.old.plan) (map placed_chunk sorted.now) }
    requires by { AreByBegin sorted.now }
    requires times { AreLawfulTimes writer.old.plan.min_time writer.old.plan.max_time }
    requires nothing_left { writer.old.chunks ≡ [] }
    requires counted { writer.old.samples < 2 ^ 64 }
    ensures { OnOk result (HasSwept writer.old labels.now sorted.now writer.new) }
{
    let mut start = 0;
    while start < sorted.len() {
        let left = &sorted[start..];
        let count = first_run(left);
        put_run(alloc, writer, labels, &left[..count])?;
        start += count;
    }
    Ok(())
}

/// Puts a chunk that meets no other as it is, and else the merge of a run's chunks.
fn put_run(
    alloc: Global,
    writer: &mut BlockWriter,
    labels: &LabelSet,
    run: &[PlacedChunk<'_>],
) -> Result<(), NoMemory>
    requires some { 0 < length run.now }
    requires stored { AllByRecursion (IsStored writer.old.plan) (map placed_chunk run.now) }
    requires after { AllByRecursion (λ c. IsAfterChunks writer.old.chunks c.min)
        (map placed_chunk run.now) }
    requires times { AreLawfulTimes writer.old.plan.min_time writer.old.plan.max_time }
    requires counted { writer.old.samples < 2 ^ 64 }
    ensures { OnOk result (HasRun writer.old labels.now (run_in run.now) writer.new) }
{
    if run.len() == 1 {
        let one = run[0];
        put_alone(writer, &one.chunk)
    } else {
        put_merged(alloc, writer, labels, run)
    }
}

/// Puts a chunk that meets no other.
fn put_alone(writer: &mut BlockWriter, chunk: &InputChunk<'_>) -> Result<(), NoMemory>
    requires stored { IsStored writer.old.plan (chunk_of chunk.now) }
    requires after { IsAfterChunks writer.old.chunks chunk.now.min }
    ensures { (labels : List Label)
        → OnOk result (HasRun writer.old labels (chunk_of chunk.now ∷ []) writer.new) }
{
    carry(writer, chunk)
}

/// Puts the merge of chunks.
fn put_merged(
    alloc: Global,
    writer: &mut BlockWriter,
    labels: &LabelSet,
    run: &[PlacedChunk<'_>],
) -> Result<(), NoMemory>
    requires many { 1 < length run.now }
    requires stored { AllByRecursion (IsStored writer.old.plan) (map placed_chunk run.now) }
    requires after { AllByRecursion (λ c. IsAfterChunks writer.old.chunks c.min)
        (map placed_chunk run.now) }
    requires times { AreLawfulTimes writer.old.plan.min_time writer.old.plan.max_time }
    requires counted { writer.old.samples < 2 ^ 64 }
    ensures { OnOk result (HasRun writer.old labels.now (run_in run.now) writer.new) }
{
    let samples = run_samples(alloc, run)?;
    let kept = first_of_each(alloc, labels, samples)?;
    put_parts(alloc, writer, kept.samples.members())
}

fn carry(writer: &mut BlockWriter, chunk: &InputChunk<'_>) -> Result<(), NoMemory>
    requires stored { IsStored writer.old.plan (chunk_of chunk.now) }
    requires after { IsAfterChunks writer.old.chunks chunk.now.min }
    ensures { (samples : List Sample) → IsText stored_filling chunk.now.bytes.now samples
        → OnOk result (writer.new ≡ with_chunk writer.old (chunk_of chunk.now)
        (length samples)) }
{
    writer.chunk_summed(chunk.bytes, chunk.sum, chunk.min, chunk.max)
}

/// The samples of chunks one after another, in the order in which the chunks were given.
fn run_samples(alloc: Global, run: &[PlacedChunk<'_>]) -> Result<Vec<Sample>, NoMemory>
    requires { AllByRecursion IsReadable (run_in run.now) }
    ensures { IfOk result (λ samples. (parts : List (List Sample))
        × AllZip StandsFor (run_in run.now) parts × (samples.items ≡ joined parts)) }
{
    let mut chunks = Vec::from_slice(alloc, run)?;
    sort_by_place(&mut chunks)?;
    let mut samples = Vec::new(alloc);
    for one in chunks.as_slice() {
        samples = append_samples(samples, one.chunk.bytes)?;
    }
    Ok(samples)
}

/// What is wanting where a chunk was read before.
fn only_memory(refusal: XorRefusal) -> NoMemory
    requires { refusal ≡ XorRefusal.NoMemory }
{
    match refusal {
        XorRefusal::NoMemory => NoMemory,
        _ => unreachable!(),
    }
}

/// Reads the samples of a chunk behind others. The chunk was read before, so only memory can be wanting.
fn append_samples(samples: Vec<Sample>, bytes: &[u8]) -> Result<Vec<Sample>, NoMemory>
    requires { (read : List Sample) × IsText stored_filling bytes.now read }
    ensures { IfOk result (λ all. (read : List Sample) × IsText stored_filling bytes.now read
        × (all.items ≡ samples.items ++ read)) }
{
    match append_stored(samples, bytes) {
        Ok(all) => Ok(all),
        Err(refusal) => Err(only_memory(refusal)),
    }
}

/// The samples with the first pattern at each time, in the order of the times.
fn first_of_each(alloc: Global, labels: &LabelSet, samples: Vec<Sample>) -> Result<Series, NoMemory>
    requires { samples.items ≢ [] }
    ensures { IfOk result (λ kept. IsMerge (triples_under labels.now samples.items) (kept ∷ [])) }
{
    let mut merger = Merger::new(alloc);
    merger.take(Series {
        labels: labels.copy()?,
        samples: List::from_vec(samples),
    })?;
    Ok(only_member(merger.finish()?))
}

fn only_member(list: SeriesList) -> Series
    requires { (kept : Series) × (list ≡ kept ∷ []) }
    ensures { list ≡ result ∷ [] }
{
    match list.into_vec().pop() {
        Some(series) => series,
        None => unreachable!(),
    }
}

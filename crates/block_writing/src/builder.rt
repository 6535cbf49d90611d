//! A block that is built of samples, as a script declares them: 120 samples a chunk, which is how Prometheus cuts them.
//! A merge puts the samples that it merged in the same way.

ghost use Rattle.std.specs.Prelude.{◌≡◌, ◌⊎◌, ◌^◌, ◌<◌, [], length, Err, IfOk, OnErr, OnOk};
ghost use Rattle.std.specs.List.{AllByRecursion};
ghost use Rattle.base.specs.Grammar.{IsBytes};
ghost use Rattle.label_sets.specs.Times.{IsWithin};
ghost use Rattle.block_meta.specs.Lawful.{AreLawfulTimes};
ghost use Rattle.xor_chunks.specs.Written.{AreOfChunk};
ghost use Rattle.block_writing.specs.Built.{AreBuildable, AreOfBlock, BeginAfter, HasFront, HasParts, IsEncoded, HasMore, IsBuilt, HaveNoBlock};
ghost use Rattle.block_writing.specs.Put.{PutChunk, IsAfterSeries, with_chunk};
ghost use Rattle.block_writing.specs.Writing.{plan_fields};

use crate::BlockWriter;
use base::{NoMemory, TryCopy};
use block_meta::{BlockFiles, BlockPlan, BuildRefusal};
use label_sets::{Sample, Series, SeriesList};
use std::alloc::Global;
use xor_chunks::{USUAL_COUNT, encode};

/// Puts samples as a chunk, with the times of the first and the last of them.
fn put_part(alloc: Global, writer: &mut BlockWriter, part: &[Sample]) -> Result<(), NoMemory>
    requires fits { AreOfChunk part.now }
    requires within { AllByRecursion (IsWithin writer.old.plan.min_time
        writer.old.plan.max_time) part.now }
    requires after { BeginAfter writer.old.chunks part.now }
    ensures ok { OnOk result ((chunk : PutChunk) × IsEncoded part.now chunk
        × (writer.new ≡ with_chunk writer.old chunk (length part.now))) }
    ensures err { OnErr result (writer.new ≡ writer.old) }
{
    let data = encode(alloc, part)?;
    writer.chunk(data.bytes(), part[0].time, part[part.len() - 1].time)
}

/// Puts samples of a series, part by part as chunks. Where memory runs out, the parts before stay put.
pub fn put_parts(
    alloc: Global,
    writer: &mut BlockWriter,
    samples: &[Sample],
) -> Result<(), NoMemory>
    requires samples { AreOfBlock writer.old.plan samples.now }
    requires times { AreLawfulTimes writer.old.plan.min_time writer.old.plan.max_time }
    requires after { BeginAfter writer.old.chunks samples.now }
    requires counted { writer.old.samples < 2 ^ 64 }
    ensures ok { OnOk result (HasParts writer.old samples.now writer.new) }
    ensures err { OnErr result (HasFront writer.old samples.now writer.new) }
{
    let mut left = samples;
    while !left.is_empty() {
        let (part, after) = left.split_at(left.len().min(USUAL_COUNT));
        put_part(alloc, writer, part)?;
        left = after;
    }
    Ok(())
}

/// Puts the samples of a series, and ends it.
fn put_series(alloc: Global, writer: &mut BlockWriter, series: &Series) -> Result<(), NoMemory>
    requires samples { AreOfBlock writer.old.plan series.now.samples }
    requires times { AreLawfulTimes writer.old.plan.min_time writer.old.plan.max_time }
    requires nothing_left { writer.old.chunks ≡ [] }
    requires greater { IsAfterSeries writer.old.series series.now.labels }
    requires counted { writer.old.samples < 2 ^ 64 }
    ensures { OnOk result (HasMore writer.old series.now writer.new) }
{
    put_parts(alloc, writer, series.samples.members())?;
    writer.series(series.labels.copy()?)
}

/// Builds the files of a block of its series, which ascend by their labels and have samples within the plan's times.
pub fn build(
    alloc: Global,
    plan: &BlockPlan,
    series: &SeriesList,
) -> Result<BlockFiles, BuildRefusal>
    requires { AreBuildable (plan_fields plan.now) series.now }
    ensures built { IfOk result (IsBuilt plan.now series.now) }
    ensures bytes { IfOk result (λ files. IsBytes files.index
        × AllByRecursion IsBytes files.segments) }

    // The index is too large exactly where the one of these series passes its greatest length, unless memory ran out.
    ensures too_large { result ≡ Err BuildRefusal.TooLarge → HaveNoBlock plan.now series.now }
    ensures refused { HaveNoBlock plan.now series.now
        → (result ≡ Err BuildRefusal.TooLarge) ⊎ (result ≡ Err BuildRefusal.NoMemory) }
{
    let mut writer = BlockWriter::new(alloc, plan.copy()?);
    for one in series.members() {
        put_series(alloc, &mut writer, one)?;
    }
    writer.finish()
}

//! A chunk that is put into a new block as it is.
ghost use Rattle.std.specs.Prelude.{◌≡◌, ◌↔◌, IsTrue, FitsSigned};
ghost use Rattle.std.specs.Int.{w64};
ghost use Rattle.label_sets.specs.Times.{IsWithin};
ghost use Rattle.block_writing.specs.Put.{IsStored};
ghost use Rattle.block_writing.specs.Writing.{plan_fields};

use crate::built::{print_totals, wide_plan};
use crate::checks::verdict_on;
use crate::says::say;
use block_meta::{BlockFiles, BlockPlan};
use block_writing::BlockWriter;
use chunk_files::read_chunk;
use label_sets::{LabelSet, Sample};
use std::alloc::Global;
use wire_bytes::Blob;
use xor_chunks::decode_stored;

/// Whether a sample lies within a plan's times.
fn is_within(plan: &BlockPlan, sample: &Sample) -> bool
    ensures { IsTrue result ↔ IsWithin plan.now.min_time plan.now.max_time sample.now }
{
    plan.min_time <= sample.time && sample.time < plan.max_time
}

fn time_of(sample: &Sample) -> i64
    ensures value { result ≡ sample.now.time }
    ensures fits { FitsSigned w64 result }
{
    sample.time
}

/// A block of one series, which has these bytes as its one chunk.
fn block_of(alloc: Global, plan: BlockPlan, bytes: &[u8], time: i64) -> Option<BlockFiles>
    requires { IsStored (plan_fields plan)
        (record { content = bytes.now; min = time; max = time }) }
{
    let Ok((labels, _)) = LabelSet::read(alloc, "{a=\"x\"}") else {
        drop(plan);
        return None;
    };
    let mut writer = BlockWriter::new(alloc, plan);
    let Ok(()) = writer.chunk(bytes, time, time) else {
        drop(writer);
        return None;
    };
    let Ok(()) = writer.series(labels) else {
        drop(writer);
        return None;
    };
    writer.finish().ok()
}

/// A block of the one sample for which these bytes stand.
fn carry(alloc: Global, bytes: &[u8]) -> Option<BlockFiles> {
    let Ok(samples) = decode_stored(alloc, bytes) else {
        return None;
    };
    let [sample] = samples.members() else {
        return None;
    };
    let Some(plan) = wide_plan(alloc, 1) else {
        return None;
    };
    if !is_within(&plan, sample) {
        drop(plan);
        return None;
    }
    block_of(alloc, plan, bytes, time_of(sample))
}

/// Whether two lists have one segment each, and these the same bytes.
fn are_same(one: &[Blob], other: &[Blob]) -> bool {
    match (one, other) {
        ([one], [other]) => one.bytes() == other.bytes(),
        _ => false,
    }
}

/// Prints whether the first chunk of the block that a row names, put into a new one, gives the same segment, and how many
/// series and samples the new one holds.
pub(crate) fn print_carried(rt: &HostRuntime, text: &str) {
    match verdict_on(rt, text, false) {
        Ok(checked) => {
            print_first(rt, checked.files().segments.members());
            drop(checked);
        }
        Err(_) => say(rt, "not carried"),
    }
}

fn print_first(rt: &HostRuntime, segments: &[Blob]) {
    match carry(rt.alloc(), first_chunk(segments)) {
        Some(files) => print_files(rt, segments, files),
        None => say(rt, "not carried"),
    }
}

/// The data of the first chunk, or none.
fn first_chunk(segments: &[Blob]) -> &[u8] {
    match segments {
        [first, ..] => read_chunk(first.bytes(), 8).unwrap_or(&[]),
        [] => &[],
    }
}

fn print_files(rt: &HostRuntime, segments: &[Blob], files: BlockFiles) {
    let same = are_same(segments, files.segments.members());
    let _ = print!(rt; "same segment {same}, ");
    print_totals(rt, files);
}

//! A series as it stands in an index: symbol numbers, and each chunk told from the one before it, which takes few
//! bytes. The distance of two references has a sign, so a segment's number has to fit 31 bits.

ghost use Rattle.std.specs.Prelude.{◌≡◌, ◌++◌, ◌+◌, ◌*◌, ◌<◌, ◌^◌, ◌≤ℤ◌, length, zip, slice_index, List, ℕ, pos, IfOk, OnOk, OnErr};
ghost use Rattle.std.specs.List.{AllByRecursion, flat_map};
ghost use Rattle.index_parts.specs.Turns.{InOrder};
ghost use Rattle.index_parts.specs.SeriesEntry.{IsSeries, StartsAfter, FitsTypes, reference_of, span, label_text, begin_text, refer_text, chunk_text, chunks_text, labels_text, series_content, series_text, segment_bound};

use crate::section_writing::append_entry;
use base::NoMemory;
use index_parts::{ChunkPlace, RawSeries, reference_of};
use std::alloc::Global;
use wire_bytes::{put_uvarint, put_varint};

fn put_label(out: &mut Vec<u8>, name: u64, value: u64) -> Result<(), NoMemory>
    ensures { OnOk result (out.new.items ≡ out.old.items ++ label_text (name, value)) }
{
    put_uvarint(out, name)?;
    put_uvarint(out, value)
}

fn put_labels(out: &mut Vec<u8>, names: &[u64], values: &[u64]) -> Result<(), NoMemory>
    ensures ok { OnOk result
        (out.new.items ≡ out.old.items ++ flat_map label_text (zip names.now values.now)) }
    ensures names { (k : ℕ) → slice_index names.now k < 2 ^ 64 }
    ensures values { (k : ℕ) → slice_index values.now k < 2 ^ 64 }
{
    for (name, value) in names.iter().zip(values) {
        put_label(out, *name, *value)?;
    }
    Ok(())
}

/// How long one time comes after another.
#[inline(always)]
fn span(begin: i64, end: i64) -> u64
    ensures { result ≡ span begin end }
{
    end.abs_diff(begin)
}

/// A reference whose segment has 31 bits, as a number with a sign.
#[inline(always)]
fn signed_reference(chunk: ChunkPlace) -> i64
    requires { chunk.segment < segment_bound }
    ensures value { result ≡ pos (reference_of chunk) }
    ensures fits { (chunk.segment < 2 ^ 32) × (chunk.offset < 2 ^ 32) }
{
    reference_of(chunk) as i64
}

#[inline(always)]
fn put_begin(
    out: &mut Vec<u8>,
    before: Option<ChunkPlace>,
    chunk: ChunkPlace,
) -> Result<(), NoMemory>
    ensures { OnOk result (out.new.items ≡ out.old.items ++ begin_text before chunk) }
{
    match before {
        None => put_varint(out, chunk.min),
        Some(before) => put_uvarint(out, span(before.max, chunk.min)),
    }
}

#[inline(always)]
fn put_refer(
    out: &mut Vec<u8>,
    before: Option<ChunkPlace>,
    chunk: ChunkPlace,
) -> Result<(), NoMemory>
    requires { StartsAfter before chunk }
    ensures ok { OnOk result (out.new.items ≡ out.old.items ++ refer_text before chunk) }
    ensures fits { (chunk.segment < 2 ^ 32) × (chunk.offset < 2 ^ 32) }
{
    match before {
        None => put_uvarint(out, reference_of(chunk)),
        Some(before) => put_varint(out, signed_reference(chunk) - signed_reference(before)),
    }
}

fn put_chunk(
    out: &mut Vec<u8>,
    before: Option<ChunkPlace>,
    chunk: &ChunkPlace,
) -> Result<(), NoMemory>
    requires { StartsAfter before chunk.now }
    ensures ok { OnOk result (out.new.items ≡ out.old.items ++ chunk_text before chunk.now) }
    ensures fits { OnOk result (FitsTypes chunk.now) }
{
    put_begin(out, before, *chunk)?;
    put_uvarint(out, span(chunk.min, chunk.max))?;
    put_refer(out, before, *chunk)
}

fn put_chunks(out: &mut Vec<u8>, chunks: &[ChunkPlace]) -> Result<(), NoMemory>
    requires { InOrder StartsAfter chunks.now }
    ensures ok { OnOk result (out.new.items ≡ out.old.items ++ chunks_text None chunks.now) }
    ensures fit { OnOk result (AllByRecursion FitsTypes chunks.now) }
{
    let mut before = None;
    for chunk in chunks {
        put_chunk(out, before, chunk)?;
        before = Some(*chunk);
    }
    Ok(())
}

/// How many bytes the content of a series of so many labels and chunks usually takes at most.
fn usual_size(labels: usize, chunks: usize) -> usize {
    let labels = labels.saturating_mul(4);
    let chunks = chunks.saturating_mul(16);
    labels.saturating_add(chunks).saturating_add(16)
}

/// The content of a series.
#[tactic(auto, unfolding(index_parts::specs::SeriesEntry::labels_text))]
fn content_of(alloc: Global, series: &RawSeries) -> Result<Vec<u8>, NoMemory>
    requires { InOrder StartsAfter series.now.chunks }
    ensures ok { IfOk result (λ content. content.items ≡ series_content series.now) }
    ensures names { OnOk result ((k : ℕ) → slice_index series.now.names k < 2 ^ 64) }
    ensures values { OnOk result ((k : ℕ) → slice_index series.now.values k < 2 ^ 64) }
    ensures label_count { length series.now.names < 2 ^ 64 }
    ensures chunk_count { OnOk result (length series.now.chunks < 2 ^ 64) }
    ensures fit { OnOk result (AllByRecursion FitsTypes series.now.chunks) }
{
    let labels = series.names.len();
    let mut content = Vec::with_capacity(alloc, usual_size(labels, series.chunks.len()))?;
    put_uvarint(&mut content, labels as u64)?;
    put_labels(
        &mut content,
        series.names.members(),
        series.values.members(),
    )?;
    put_uvarint(&mut content, series.chunks.len() as u64)?;
    put_chunks(&mut content, series.chunks.members())?;
    Ok(content)
}

/// Appends a series.
pub fn write_series(out: &mut Vec<u8>, series: &RawSeries) -> Result<(), NoMemory>
    requires as_many { length series.now.names ≡ length series.now.values }
    requires chunks { InOrder StartsAfter series.now.chunks }
    ensures ok { OnOk result (out.new.items ≡ out.old.items ++ series_text series.now) }
    ensures err { OnErr result (out.new.items ≡ out.old.items) }

    // It stands where it was written, whatever is appended after it.
    ensures stands { (after : List ℕ)
        → OnOk result (IsSeries (out.new.items ++ after) (length out.old.items) series.now) }
{
    let content = content_of(*out.allocator(), series)?;
    append_entry(out, content.as_slice())
}

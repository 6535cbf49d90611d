//! XOR data back to samples. Prometheus leaves a whole byte of zeros behind where the bits end at a byte's edge, so
//! stored data is read with it; what `encode` writes never has one, and `decode` takes none.

ghost use Rattle.std.specs.Prelude.{◌≡◌, ◌+◌, ◌≤◌, ◌*◌, ◌⊎◌, ◌++◌, ◌∷◌, [], length, List, IfOk, MatchResult, Ok, Err};
ghost use Rattle.std.specs.Result.{IsOkAnd};
ghost use Rattle.label_sets.specs.declared.sample.Sample.{Sample};
ghost use Rattle.xor_chunks.specs.Widths.{filling, stored_filling};
ghost use Rattle.xor_chunks.specs.Grammar.{IsText};
ghost use Rattle.xor_chunks.specs.Known.{state_of};
ghost use Rattle.base.specs.Reading.{Answers, Gives};
ghost use Rattle.base.specs.Grammar.{IsBytes};
ghost use Rattle.xor_chunks.specs.Data.{count_at, first_at, gap_at, others_at, rest_at, samples_at, data_at, is_filling, with_front, with_samples};

use crate::XorRefusal;
use crate::last::Last;
use crate::step::{follow, next};
use crate::widths::{FILLING, STORED_FILLING};
use base::List;
use label_sets::{Sample, SampleList};
use std::alloc::Global;
use wire_bytes::{BitReader, Cursor};

/// How many samples there are, and the bytes after that.
#[tactic(auto, unfolding(crate::specs::Data::count_at))]
pub(crate) fn count_of(bytes: &[u8]) -> Result<(u16, &[u8]), XorRefusal>
    ensures { Answers (λ x. (x.0, x.1.now)) result (count_at bytes.now) }
{
    let mut cursor = Cursor::new(bytes);
    let count = cursor.take_u16()?;
    Ok((count, cursor.rest()))
}

/// The first sample, and the bytes after it.
#[tactic(auto, unfolding(crate::specs::Data::first_at))]
pub(crate) fn first_of(bytes: &[u8]) -> Result<(Sample, &[u8]), XorRefusal>
    ensures { Answers (λ x. (x.0, x.1.now)) result (first_at bytes.now) }
{
    let mut cursor = Cursor::new(bytes);
    let time = cursor.take_varint()?;
    let pattern = cursor.take_u64()?;
    Ok((Sample { time, pattern }, cursor.rest()))
}

/// How long the second sample comes after the first, and the bytes after that.
#[tactic(auto, unfolding(crate::specs::Data::gap_at))]
pub(crate) fn gap_of(bytes: &[u8]) -> Result<(u64, &[u8]), XorRefusal>
    ensures { Answers (λ x. (x.0, x.1.now)) result (gap_at bytes.now) }
{
    let mut cursor = Cursor::new(bytes);
    let gap = cursor.take_uvarint()?;
    Ok((gap, cursor.rest()))
}

/// Reads `count` samples after the second.
fn push_others<'a>(
    mut samples: Vec<Sample>,
    count: u16,
    second: Last,
    mut reader: BitReader<'a>,
) -> Result<(Vec<Sample>, BitReader<'a>), XorRefusal>
    ensures { Gives XorRefusal.NoMemory (λ x. (x.0.items, x.1)) result
        (with_front samples.items (others_at count (state_of second) reader.entry)) }
{
    let mut last = second;
    for _ in 0..count {
        let (after, left) = next(reader, last)?;
        samples = push_sample(samples, after.sample())?;
        last = after;
        reader = left;
    }
    Ok((samples, reader))
}

/// The samples with one more.
#[inline(always)]
fn push_sample(mut samples: Vec<Sample>, sample: Sample) -> Result<Vec<Sample>, XorRefusal>
    ensures { MatchResult result (λ v. v.items ≡ samples.items ++ sample ∷ [])
        (λ e. e ≡ XorRefusal.NoMemory) }
{
    if samples.len() < samples.capacity() {
        samples.push_reserved(sample);
        Ok(samples)
    } else {
        push_growing(samples, sample)
    }
}

/// The samples with one more, where there may be no room. Its temporaries stand here, off the fast path.
#[inline(always)]
fn push_growing(samples: Vec<Sample>, sample: Sample) -> Result<Vec<Sample>, XorRefusal>
    ensures { MatchResult result (λ v. v.items ≡ samples.items ++ sample ∷ [])
        (λ e. e ≡ XorRefusal.NoMemory) }
{
    let samples = push_slowly(samples, sample)?;
    Ok(samples)
}

#[cold]
#[inline(never)]
fn push_slowly(mut samples: Vec<Sample>, sample: Sample) -> Result<Vec<Sample>, XorRefusal>
    ensures { MatchResult result (λ v. v.items ≡ samples.items ++ sample ∷ [])
        (λ e. e ≡ XorRefusal.NoMemory) }
{
    samples.push(sample)?;
    Ok(samples)
}

/// Reads `count` samples after the first.
#[tactic(auto, unfolding(crate::specs::Data::rest_at))]
fn push_rest<'a>(
    mut samples: Vec<Sample>,
    count: u16,
    first: Last,
    bytes: &'a [u8],
) -> Result<(Vec<Sample>, BitReader<'a>), XorRefusal>
    ensures { Gives XorRefusal.NoMemory (λ x. (x.0.items, x.1)) result
        (with_front samples.items (rest_at count (state_of first) bytes.now)) }
{
    if count == 0 {
        return Ok((samples, BitReader::new(bytes)));
    }
    let (gap, bytes) = gap_of(bytes)?;
    let mut reader = BitReader::new(bytes);
    let second = follow(&mut reader, first, i128::from(gap))?;
    samples.push(second.sample())?;
    push_others(samples, count - 1, second, reader)
}

/// Reads `count` samples.
fn push_samples(
    mut samples: Vec<Sample>,
    count: u16,
    bytes: &[u8],
) -> Result<(Vec<Sample>, BitReader<'_>), XorRefusal>
    ensures { Gives XorRefusal.NoMemory (λ x. (x.0.items, x.1)) result
        (with_front samples.items (samples_at count bytes.now)) }
{
    if count == 0 {
        return Ok((samples, BitReader::new(bytes)));
    }
    let (first, rest) = first_of(bytes)?;
    samples.reserve(room_for(count, bytes))?;
    samples.push(first)?;
    push_rest(samples, count - 1, Last::of_first(first), rest)
}

/// How many samples to make room for: each but the first two takes two bits at least.
fn room_for(count: u16, bytes: &[u8]) -> usize {
    (count as usize).min(bytes.len().saturating_mul(4))
}

/// Whether at most `most` bits are left, all zero.
pub(crate) fn is_filling(mut reader: BitReader<'_>, most: u32) -> bool
    requires { most ≤ 64 }
    ensures { result ≡ is_filling most reader.entry }
{
    let left = reader.left();
    if left > u64::from(most) {
        return false;
    }
    match reader.take_bits(left as u32) {
        Ok(number) => number == 0,
        Err(_) => false,
    }
}

/// Reads the samples of all the bytes, after which at most `most` bits are left, all zero.
fn push_data(samples: Vec<Sample>, bytes: &[u8], most: u32) -> Result<Vec<Sample>, XorRefusal>
    requires { most ≤ 64 }
    ensures exact { Gives XorRefusal.NoMemory
        (λ all. all.items) result (with_samples samples.items (data_at most bytes.now)) }
    ensures bytes { IsBytes bytes.now }
{
    let (count, rest) = count_of(bytes)?;
    let (samples, reader) = push_samples(samples, count, rest)?;
    if !is_filling(reader, most) {
        return Err(XorRefusal::Trailing);
    }
    Ok(samples)
}

/// The samples of all the bytes, after which at most `most` bits are left, all zero.
fn data_of(alloc: Global, bytes: &[u8], most: u32) -> Result<SampleList, XorRefusal>
    requires { most ≤ 64 }
    ensures exact { Gives XorRefusal.NoMemory (λ samples. samples) result (data_at most bytes.now) }
    ensures bytes { IsBytes bytes.now }
{
    let samples = push_data(Vec::new(alloc), bytes, most)?;
    Ok(List::from_vec(samples))
}

/// The samples of XOR data.
pub fn decode(alloc: Global, bytes: &[u8]) -> Result<SampleList, XorRefusal>
    // What is read is what the bytes stand for, and bytes that stand for samples are read.
    ensures found { IfOk result (λ samples. IsText filling bytes.now samples) }
    ensures only { (samples : List Sample) → IsText filling bytes.now samples
        → (result ≡ Ok samples) ⊎ (result ≡ Err XorRefusal.NoMemory) }

    // A refusal is that of the first sample that cannot be read, by its first case.
    ensures exact { Gives XorRefusal.NoMemory (λ samples. samples) result
        (data_at filling bytes.now) }
    ensures few { IfOk result (λ samples. length samples ≤ 8 * length bytes.now) }
{
    data_of(alloc, bytes, FILLING)
}

/// The samples of XOR data as Prometheus stores it, which may end with a byte of zeros more.
pub fn decode_stored(alloc: Global, bytes: &[u8]) -> Result<SampleList, XorRefusal>
    // What is read is what the bytes stand for, and bytes that stand for samples are read.
    ensures found { IfOk result (λ samples. IsText stored_filling bytes.now samples) }
    ensures only { (samples : List Sample) → IsText stored_filling bytes.now samples
        → (result ≡ Ok samples) ⊎ (result ≡ Err XorRefusal.NoMemory) }

    // A refusal is that of the first sample that cannot be read, by its first case.
    ensures exact { Gives XorRefusal.NoMemory (λ samples. samples) result
        (data_at stored_filling bytes.now) }
    ensures few { IfOk result (λ samples. length samples ≤ 8 * length bytes.now) }
{
    data_of(alloc, bytes, STORED_FILLING)
}

/// Reads stored XOR data, as `decode_stored` does, and puts its samples behind others. The others are lost where it is refused.
pub fn append_stored(samples: Vec<Sample>, bytes: &[u8]) -> Result<Vec<Sample>, XorRefusal>
    // What is put behind is what the bytes stand for, and bytes that stand for samples are read.
    ensures found { IfOk result (λ all. (read : List Sample) × IsText stored_filling bytes.now read
        × (all.items ≡ samples.items ++ read)) }
    ensures only { (read : List Sample) → IsText stored_filling bytes.now read
        → IsOkAnd result (λ all. all.items ≡ samples.items ++ read)
        ⊎ (result ≡ Err XorRefusal.NoMemory) }

    // A refusal is that of the first sample that cannot be read, by its first case.
    ensures exact { Gives XorRefusal.NoMemory
        (λ all. all.items) result (with_samples samples.items (data_at stored_filling bytes.now)) }
    ensures few { IfOk result
        (λ all. length all.items ≤ length samples.items + 8 * length bytes.now) }
{
    push_data(samples, bytes, STORED_FILLING)
}

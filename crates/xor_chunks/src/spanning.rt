//! How many samples XOR data stands for, and between which times. No sample is kept.

ghost use Rattle.std.specs.Prelude.{◌≡◌, ◌≤◌, ◌<◌, ◌-◌, ℕ, List, Ok, IfOk};
ghost use Rattle.label_sets.specs.declared.sample.Sample.{Sample};
ghost use Rattle.base.specs.Reading.{Answers};
ghost use Rattle.base.specs.Grammar.{IsBytes};
ghost use Rattle.xor_chunks.specs.Widths.{stored_filling};
ghost use Rattle.xor_chunks.specs.Grammar.{IsText};
ghost use Rattle.wire_bytes.specs.Bits.{bits_in, EndWith};
ghost use Rattle.xor_chunks.specs.Known.{state_of};
ghost use Rattle.xor_chunks.specs.Data.{rest_at, samples_at};
ghost use Rattle.xor_chunks.specs.Spans.{span_of, with_end, end_at, with_span, span_at};

use crate::XorRefusal;
use crate::decoding::{count_of, first_of, gap_of, is_filling};
use crate::last::Last;
use crate::passing::pass_most;
use crate::step::{follow, next};
use crate::widths::STORED_FILLING;
use label_sets::Sample;
use wire_bytes::BitReader;

/// What is told of samples of which none is kept.
#[derive(Clone, Copy, Debug, PartialEq, Eq)]
pub struct SampleSpan {
    /// How many there are, one at least.
    pub count: u16,
    /// The first time, in milliseconds since 1970.
    pub first: i64,
    /// The last time, which is the first one where there is one sample.
    pub last: i64,
}

/// Passes over `count` samples after the second one by one, and gives the last one.
fn pass_each<'a>(
    count: u16,
    second: Last,
    mut reader: BitReader<'a>,
) -> Result<(Last, BitReader<'a>), XorRefusal>
    ensures { Answers (λ x. (x.0.time, x.1)) result
        (end_at count (state_of second) reader.entry) }
{
    let mut last = second;
    for _ in 0..count {
        let (after, left) = next(reader, last)?;
        last = after;
        reader = left;
    }
    Ok((last, reader))
}

/// Passes over `count` samples after the second, and gives the last one.
fn pass_others<'a>(
    count: u16,
    second: Last,
    bytes: &'a [u8],
    reader: BitReader<'a>,
) -> Result<(Last, BitReader<'a>), XorRefusal>
    requires { EndWith (bits_in bytes.now) reader }
    ensures { Answers (λ x. (x.0.time, x.1)) result
        (end_at count (state_of second) reader.entry) }
{
    let (left, last, rest) = pass_most(count, second, bytes, reader);
    pass_each(left, last, rest)
}

/// Passes over `count` samples after the first, and gives the last one.
#[tactic(auto, unfolding(crate::specs::Data::rest_at))]
fn pass_rest<'a>(
    count: u16,
    first: Last,
    bytes: &'a [u8],
) -> Result<(Last, BitReader<'a>), XorRefusal>
    ensures { Answers (λ x. (x.0.time, x.1)) result
        (with_end first.time (rest_at count (state_of first) bytes.now)) }
{
    if count == 0 {
        return Ok((first, BitReader::new(bytes)));
    }
    let (gap, bytes) = gap_of(bytes)?;
    let mut reader = BitReader::new(bytes);
    let second = follow(&mut reader, first, i128::from(gap))?;
    pass_others(count - 1, second, bytes, reader)
}

fn span(count: u16, first: Sample, last: Last) -> SampleSpan
    ensures { result ≡ record { count = count; first = first.time; last = last.time } }
{
    SampleSpan {
        count,
        first: first.time,
        last: last.time,
    }
}

/// Passes over `count` samples.
fn pass_samples(count: u16, bytes: &[u8]) -> Result<(Option<SampleSpan>, BitReader<'_>), XorRefusal>
    ensures { Answers (λ x. (x.0, x.1)) result (with_span (samples_at count bytes.now)) }
{
    if count == 0 {
        return Ok((None, BitReader::new(bytes)));
    }
    let (first, rest) = first_of(bytes)?;
    let (last, reader) = pass_rest(count - 1, Last::of_first(first), rest)?;
    Ok((Some(span(count, first, last)), reader))
}

/// Passes over the samples of all the bytes, after which at most `most` bits are left, all zero.
fn span_data(bytes: &[u8], most: u32) -> Result<Option<SampleSpan>, XorRefusal>
    requires { most ≤ 64 }
    ensures exact { Answers (λ span. span) result (span_at most bytes.now) }
    ensures bytes { IsBytes bytes.now }
{
    let (count, rest) = count_of(bytes)?;
    let (span, reader) = pass_samples(count, rest)?;
    if !is_filling(reader, most) {
        return Err(XorRefusal::Trailing);
    }
    Ok(span)
}

/// How many samples stored XOR data stands for, and the first and the last time; nothing where there is none. It reads what
/// `decode_stored` reads and refuses what it refuses, and takes no memory.
pub fn span_stored(bytes: &[u8]) -> Result<Option<SampleSpan>, XorRefusal>
    // What is told is told of the samples that the bytes stand for, and bytes that stand for samples are told of.
    ensures found { IfOk result (λ span. (samples : List Sample)
        × IsText stored_filling bytes.now samples × (span ≡ span_of samples)) }
    ensures only { (samples : List Sample) → IsText stored_filling bytes.now samples
        → result ≡ Ok (span_of samples) }

    // A refusal is that of the first sample that cannot be read, by its first case.
    ensures exact { Answers (λ span. span) result (span_at stored_filling bytes.now) }
{
    span_data(bytes, STORED_FILLING)
}

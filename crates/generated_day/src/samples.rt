//! The samples of the generated day.

ghost use Rattle.std.specs.Prelude.{◌≡◌, ◌<◌, ◌≤◌, ◌^◌, ◌++◌, IfOk, OnOk};
ghost use Rattle.generated_day.specs.Day.{block_count, block_start, pattern, sample, has_sample, sample_part, day_samples, series_count, place_count};

use base::NoMemory;
use label_sets::{Sample, SampleList};
use std::alloc::Global;

/// The first millisecond of the day.
pub(crate) const DAY_START: u64 = 1_728_000_000_000;

/// How many blocks a replica has.
pub(crate) const BLOCK_COUNT: u64 = 12;

/// How many milliseconds a block has.
const BLOCK_SPAN: u64 = 7_200_000;

/// How many milliseconds lie between two places for samples.
const SAMPLE_STEP: u64 = 15_000;

/// How many samples a replica's series has at most.
const MOST_SAMPLES: usize = 412;

/// How many places for samples a block has.
const PLACE_COUNT: u64 = 480;

const SERIES_SEED: u64 = 1_000_003;

const MULTIPLIER: u128 = 6_364_136_223_846_793_005;

const INCREMENT: u128 = 1_442_695_040_888_963_407;

const PATTERNS: u128 = 0x1_0000_0000_0000_0000;

/// The first millisecond of the block at a place, and the one behind the block before it.
pub(crate) fn block_start(place: u64) -> u64
    requires { place ≤ block_count }
    ensures { result ≡ block_start place }
{
    DAY_START + BLOCK_SPAN * place
}

fn pattern(number: u64, series: u64, time: u64) -> u64
    requires series { series < series_count }
    requires time { time < 2 ^ 41 }
    ensures { result ≡ pattern number series time }
{
    let seed = u128::from(number) + u128::from(SERIES_SEED * series + time);
    ((seed * MULTIPLIER + INCREMENT) % PATTERNS) as u64
}

fn sample(number: u64, block: u64, series: u64, place: u64) -> Sample
    requires block { block < block_count }
    requires series { series < series_count }
    requires place { place < place_count }
    ensures { result ≡ sample number block series place }
{
    let time = block_start(block) + SAMPLE_STEP * place;
    Sample {
        time: time as i64,
        pattern: pattern(number, series, time),
    }
}

/// Whether a replica has the sample at a place: of each seven it misses one.
fn has_sample(replica: u64, place: u64) -> bool
    ensures { result ≡ has_sample replica place }
{
    let missed = if replica == 0 { 3 } else { 5 };
    place % 7 != missed
}

/// Adds the sample at a place, if the replica has it.
#[tactic(auto, unfolding(crate::specs::Day::sample_part))]
fn push_sample(
    samples: &mut Vec<Sample>,
    number: u64,
    block: u64,
    replica: u64,
    series: u64,
    place: u64,
) -> Result<(), NoMemory>
    requires block { block < block_count }
    requires series { series < series_count }
    requires place { place < place_count }
    ensures { OnOk result (samples.new.items
        ≡ samples.old.items ++ sample_part number block replica series place) }
{
    if has_sample(replica, place) {
        samples.push(sample(number, block, series, place))?;
    }
    Ok(())
}

/// The samples of a series.
pub(crate) fn samples_of(
    alloc: Global,
    number: u64,
    block: u64,
    replica: u64,
    series: u64,
) -> Result<SampleList, NoMemory>
    requires block { block < block_count }
    requires series { series < series_count }
    ensures { IfOk result (λ samples. samples ≡ day_samples number block replica series) }
{
    let mut samples = Vec::new(alloc);
    samples.reserve(MOST_SAMPLES)?;
    for place in 0..PLACE_COUNT {
        push_sample(&mut samples, number, block, replica, series, place)?;
    }
    Ok(SampleList::from_vec(samples))
}

ghost use Rattle.std.specs.Prelude.{◌↔◌, IsTrue, All};
ghost use Rattle.xor_chunks.specs.Written.{IsChunkTime, AreOfChunk};

use label_sets::{Sample, TIME_LIMIT, times_ascend};

/// How many samples a chunk has as a rule. A series is cut into chunks of as many.
pub const USUAL_COUNT: usize = 120;

/// The least number of samples that no chunk has.
const COUNT_LIMIT: usize = 1 << 16;

fn is_chunk_time(time: i64) -> bool
    ensures { IsTrue result ↔ IsChunkTime time }
{
    -TIME_LIMIT <= time && time < TIME_LIMIT
}

fn have_chunk_times(samples: &[Sample]) -> bool
    ensures { IsTrue result ↔ All (λ s. IsChunkTime s.time) samples.now }
{
    samples.iter().all(|sample| is_chunk_time(sample.time))
}

/// Whether these samples can be encoded as one chunk: 1 to 65,535 of them, with rising times from -2^62 to 2^62 - 1.
pub fn fit_a_chunk(samples: &[Sample]) -> bool
    ensures { IsTrue result ↔ AreOfChunk samples.now }
{
    !samples.is_empty()
        && samples.len() < COUNT_LIMIT
        && times_ascend(samples)
        && have_chunk_times(samples)
}

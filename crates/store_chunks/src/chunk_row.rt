ghost use Rattle.std.specs.Prelude.{◌≡◌, length};
ghost use Rattle.store_chunks.specs.RowCounts.{counted};

use label_sets::Sample;

/// A chunk of a row: its reference, and how many samples it has.
#[derive(Clone, Copy)]
pub(crate) struct RowChunk {
    pub(crate) reference: u64,
    pub(crate) count: usize,
}

/// Chunks that were read one behind another, as a rule all those of one series, and their samples
/// in one list.
#[derive(Drop)]
pub struct ChunkRow {
    pub(crate) chunks: Vec<RowChunk>,
    pub(crate) samples: Vec<Sample>,
    /// From which reference on chunks stand in another row.
    pub(crate) until: u64,
    ghost whole: { counted chunks.items ≡ length samples.items },
}

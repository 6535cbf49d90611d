use base::{List, NoMemory, TryCopy};

/// Where a chunk stands, and the times of its first and its last sample in milliseconds.
#[derive(Clone, Copy, Debug, PartialEq, Eq)]
pub struct ChunkPlace {
    pub min: i64,
    pub max: i64,
    /// The number of the segment file, counted from 0.
    pub segment: u32,
    /// The chunk's first byte in its file.
    pub offset: u32,
}

impl TryCopy for ChunkPlace {
    fn copy(&self) -> Result<Self, NoMemory> {
        Ok(*self)
    }
}

/// A list of chunks' places.
pub type ChunkList = List<ChunkPlace>;

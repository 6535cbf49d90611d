use crate::ChunkList;
use base::{NoMemory, TryCopy};
use wire_bytes::NumberList;

/// A symbol number, and the place where it stands.
#[derive(Clone, Copy)]
pub struct SymbolNumber {
    pub number: u64,
    pub place: u64,
}

/// A label as it stands in an index: the symbol numbers of its name and of its value.
#[derive(Clone, Copy)]
pub struct RawLabel {
    pub name: SymbolNumber,
    pub value: SymbolNumber,
}

/// A series as it stands in an index: the symbol numbers of its labels' names and, in the same order, of their values, and
/// its chunks.
#[derive(Drop)]
pub struct RawSeries {
    pub names: NumberList,
    pub values: NumberList,
    pub chunks: ChunkList,
}

impl TryCopy for RawSeries {
    fn copy(&self) -> Result<Self, NoMemory> {
        Ok(RawSeries {
            names: self.names.copy()?,
            values: self.values.copy()?,
            chunks: self.chunks.copy()?,
        })
    }
}

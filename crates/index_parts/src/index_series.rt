use crate::ChunkList;
use base::{List, NoMemory, TryCopy};
use label_sets::LabelSet;

/// A series of an index: its labels, and where its chunks stand.
#[derive(Drop)]
pub struct IndexSeries {
    pub labels: LabelSet,
    pub chunks: ChunkList,
}

/// A list of such series.
pub type IndexSeriesList = List<IndexSeries>;

impl TryCopy for IndexSeries {
    fn copy(&self) -> Result<Self, NoMemory> {
        Ok(IndexSeries {
            labels: self.labels.copy()?,
            chunks: self.chunks.copy()?,
        })
    }
}

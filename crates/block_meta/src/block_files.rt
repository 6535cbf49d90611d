ghost use Rattle.std.specs.Prelude.{◌≤◌, length};
ghost use Rattle.block_keys.specs.Keys.{segment_limit};

use crate::Meta;
use base::{List, NoMemory, TryCopy};
use wire_bytes::Blob;

/// A list of blobs.
pub type BlobList = List<Blob>;

/// What a block consists of.
#[derive(Drop)]
pub struct BlockFiles {
    pub meta: Meta,
    pub index: Blob,
    /// The segments of chunks, numbered from 1.
    pub segments: BlobList,
    pub ghost numbered: { length segments ≤ segment_limit },
}

impl TryCopy for BlockFiles {
    fn copy(&self) -> Result<Self, NoMemory> {
        Ok(BlockFiles {
            meta: self.meta.copy()?,
            index: self.index.copy()?,
            segments: self.segments.copy()?,
        })
    }
}

use crate::Body;
use base::{List, NoMemory, TryCopy};
use label_sets::LabelSet;
use ulid_core::Ulid;

/// A block that a script declares, with its external labels.
#[derive(Drop)]
pub struct Block {
    pub ulid: Ulid,
    pub labels: LabelSet,
    pub body: Body,
}

/// A list of declared blocks.
pub type BlockList = List<Block>;

impl TryCopy for Block {
    fn copy(&self) -> Result<Self, NoMemory> {
        Ok(Block {
            ulid: self.ulid,
            labels: self.labels.copy()?,
            body: self.body.copy()?,
        })
    }
}

use base::{List, NoMemory, TryCopy};
use block_meta::{DeletionMark, Meta};
use moment_core::Moment;
use ulid_core::Ulid;

/// A block that a sync found, with what it read of it and when.
#[derive(Drop)]
pub struct Found {
    pub ulid: Ulid,
    pub mark: Option<DeletionMark>,
    pub mark_read: Moment,
    pub meta: Meta,
    pub meta_read: Moment,
}

impl TryCopy for Found {
    fn copy(&self) -> Result<Self, NoMemory> {
        let mark = match &self.mark {
            Some(mark) => Some(mark.copy()?),
            None => None,
        };
        Ok(Found {
            ulid: self.ulid,
            mark,
            mark_read: self.mark_read,
            meta: self.meta.copy()?,
            meta_read: self.meta_read,
        })
    }
}

/// Blocks that were found.
pub type FoundList = List<Found>;

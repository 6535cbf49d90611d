use crate::{Op, Reply};
use base::{List, NoMemory, TryCopy};
use moment_core::Moment;

/// One step of the system: an operation and its reply. Entries are numbered from 1.
#[derive(Drop)]
pub struct Entry {
    pub seq: u64,
    /// Who did the operation.
    pub seat: u32,
    pub moment: Moment,
    pub op: Op,
    pub reply: Reply,
}

impl TryCopy for Entry {
    fn copy(&self) -> Result<Self, NoMemory> {
        Ok(Entry {
            seq: self.seq,
            seat: self.seat,
            moment: self.moment,
            op: self.op.copy()?,
            reply: self.reply.copy()?,
        })
    }
}

/// A list of entries.
pub type EntryList = List<Entry>;

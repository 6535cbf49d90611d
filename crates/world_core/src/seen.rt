use crate::Reply;
use base::{NoMemory, TryCopy};
use moment_core::Moment;

/// What is told of an operation that was done: its entry's number and moment, and the reply.
#[derive(Drop)]
pub struct Seen {
    pub seq: u64,
    pub moment: Moment,
    pub reply: Reply,
}

impl TryCopy for Seen {
    fn copy(&self) -> Result<Self, NoMemory> {
        Ok(Seen {
            seq: self.seq,
            moment: self.moment,
            reply: self.reply.copy()?,
        })
    }
}

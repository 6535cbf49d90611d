use base::{List, NoMemory, TryCopy};
use wire_bytes::NumberList;

/// Who does which tasks of a phase.
#[derive(Drop)]
pub struct Worker {
    /// The number under which the worker's operations are kept, from 1 over the whole script.
    pub seat: u32,
    /// The gateway's place, and none for an upload, a compaction or a cleaning.
    pub gateway: Option<u32>,
    /// The places of the tasks in the phase, in order.
    pub tasks: NumberList,
}

/// A list of workers.
pub type WorkerList = List<Worker>;

impl TryCopy for Worker {
    fn copy(&self) -> Result<Self, NoMemory> {
        Ok(Worker {
            seat: self.seat,
            gateway: self.gateway,
            tasks: self.tasks.copy()?,
        })
    }
}

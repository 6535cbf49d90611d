use crate::TaskList;
use base::{List, NoMemory, TryCopy};
use moment_core::Moment;

/// The tasks from one moment on, in the order of their lines.
#[derive(Drop)]
pub struct Phase {
    /// The number of the line that begins the phase.
    pub line: u32,
    pub moment: Moment,
    pub tasks: TaskList,
}

/// A list of phases.
pub type PhaseList = List<Phase>;

impl TryCopy for Phase {
    fn copy(&self) -> Result<Self, NoMemory> {
        Ok(Phase {
            line: self.line,
            moment: self.moment,
            tasks: self.tasks.copy()?,
        })
    }
}

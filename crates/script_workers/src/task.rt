use crate::Work;
use base::{List, NoMemory, TryCopy};

/// A line of a phase, with its number in the script.
#[derive(Debug, PartialEq, Eq, Drop)]
pub struct Task {
    pub line: u32,
    pub work: Work,
}

/// A list of tasks.
pub type TaskList = List<Task>;

impl TryCopy for Task {
    fn copy(&self) -> Result<Self, NoMemory> {
        Ok(Task {
            line: self.line,
            work: self.work.copy()?,
        })
    }
}

//! Lines of a report, in which those of answers' series are put in a way of the caller's.

ghost use Rattle.std.specs.Prelude.{◌≡◌, [], true};

use crate::{Lines, SeriesWay};
use base::NoMemory;
use script_core::{Script, Task};
use script_running::{Outcome, Report};
use std::alloc::Global;

/// The lines of some tasks, and the way in which those of answers' series are put.
#[derive(Drop)]
pub struct LinesBy<W: SeriesWay> {
    pub lines: Lines,
    way: W,
    ghost able: { ∥ W.can_put way ∥₁ },
}

impl<W: SeriesWay> LinesBy<W> {
    /// Nothing was told yet.
    pub fn new(alloc: Global, way: W) -> LinesBy<W>
        requires { W.can_put way }
        ensures { (result.lines.text.items ≡ []) × (result.lines.as_asked ≡ true) }
    {
        LinesBy {
            lines: Lines::new(alloc),
            way,
        }
    }
}

impl<W: SeriesWay> Report for LinesBy<W> {
    ghost use Rattle.report_lines.specs.Telling.{AreLinesOf};

    ghost tells = { λ report. AreLinesOf report.lines };

    fn add(&mut self, script: &Script, task: &Task, outcome: &Outcome) -> Result<(), NoMemory> {
        self.lines.tell(script, task, outcome, &self.way)
    }
}

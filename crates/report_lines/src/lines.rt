//! The lines of a report, to which one activity is added after another.

ghost use Rattle.std.specs.Prelude.{◌≡◌, ◌≢◌, ◌++◌, ◌&&◌, [], true, Err, OnErr, OnOk};
ghost use Rattle.report_lines.specs.Reports.{activity_text};
ghost use Rattle.script_running.specs.Outcomes.{is_as_asked};

use crate::report::put_activity;
use crate::{InTurn, PhaseReport, SeriesWay};
use base::NoMemory;
use script_core::{Script, Task};
use script_running::{Broken, Outcome, Report};
use std::alloc::Global;

/// The lines of some tasks, and whether all of them ended as asked.
#[derive(Drop)]
pub struct Lines {
    pub text: Vec<u8>,
    pub as_asked: bool,
}

impl Lines {
    /// Nothing was told yet.
    pub fn new(alloc: Global) -> Lines
        ensures { (result.text.items ≡ []) × (result.as_asked ≡ true) }
    {
        Lines {
            text: Vec::new(alloc),
            as_asked: true,
        }
    }

    /// Adds the lines of a phase that is finished; or for want of memory nothing.
    pub fn take(&mut self, more: Lines) -> Result<(), Broken>
        ensures text { OnOk result (self.new.text.items ≡ self.old.text.items ++ more.text.items) }
        ensures asked { OnOk result (self.new.as_asked ≡ self.old.as_asked && more.as_asked) }
        ensures kept { OnErr result ((self.new.text.items ≡ self.old.text.items)
            × (self.new.as_asked ≡ self.old.as_asked)) }
        ensures refusal { result ≢ Err Broken.Full }
    {
        match self.text.extend_from_slice(&more.text) {
            Ok(()) => {
                self.as_asked = self.as_asked && more.as_asked;
                Ok(())
            }
            Err(_) => Err(Broken::NoMemory),
        }
    }

    /// Adds the lines of one activity. Those of an answer's series are put in this way.
    pub fn tell<W: SeriesWay>(
        &mut self,
        script: &Script,
        task: &Task,
        outcome: &Outcome,
        way: &W,
    ) -> Result<(), NoMemory>
        requires way { W.can_put way.now }
        ensures text { OnOk result
            (self.new.text.items
            ≡ self.old.text.items ++ activity_text script.now task.now.work outcome.now) }
        ensures asked { OnOk result
            (self.new.as_asked ≡ self.old.as_asked && is_as_asked outcome.now) }
    {
        put_activity(&mut self.text, script, task, outcome, way)?;
        self.as_asked = self.as_asked && outcome.is_as_asked();
        Ok(())
    }
}

impl Report for Lines {
    ghost use Rattle.report_lines.specs.Telling.{AreLinesOf};

    ghost tells = { AreLinesOf };

    fn add(&mut self, script: &Script, task: &Task, outcome: &Outcome) -> Result<(), NoMemory> {
        self.tell(script, task, outcome, &InTurn)
    }
}

impl PhaseReport for Lines {
    fn empty(alloc: Global) -> Self {
        Lines::new(alloc)
    }

    fn join(&mut self, more: Self) -> Result<(), Broken> {
        self.take(more)
    }
}

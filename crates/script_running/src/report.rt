ghost use Rattle.std.specs.Prelude.{◌++◌, ◌∷◌, [], List, OnOk};
ghost use Rattle.script_workers.specs.declared.task.Task.{Task};
ghost use Rattle.script_running.specs.Outcomes.{Outcome};

use crate::Outcome;
use base::NoMemory;
use script_core::{Script, Task};

/// A report of a run, to which one task is added after another.
pub trait Report {
    ghost use Rattle.std.specs.Prelude.{List};
    ghost use Rattle.script_core.specs.declared.script.Script.{Script};
    ghost use Rattle.script_workers.specs.declared.task.Task.{Task};
    ghost use Rattle.script_running.specs.Outcomes.{Outcome};

    /// It tells how these tasks of the script came out, and of no others.
    ghost tells: { Self → Script → List Task → List Outcome → Type 0 };

    /// Adds how one task more came out.
    fn add(&mut self, script: &Script, task: &Task, outcome: &Outcome) -> Result<(), NoMemory>
        ensures { (tasks : List Task) (outcomes : List Outcome)
            → tells self.old script.now tasks outcomes
            → OnOk result (tells self.new script.now (tasks ++ task.now ∷ [])
            (outcomes ++ outcome.now ∷ [])) };
}

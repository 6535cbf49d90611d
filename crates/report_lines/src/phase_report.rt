use script_running::{Broken, Report};
use std::alloc::Global;

/// A report that is made phase by phase: that of a phase is added once the phase is finished.
pub trait PhaseReport: Report {
    ghost use Rattle.std.specs.Prelude.{◌≢◌, ◌++◌, [], List, Err, OnErr, OnOk};
    ghost use Rattle.script_core.specs.declared.script.Script.{Script};
    ghost use Rattle.script_workers.specs.declared.task.Task.{Task};
    ghost use Rattle.script_running.specs.Outcomes.{Outcome};

    /// A report that tells of nothing.
    fn empty(alloc: Global) -> Self
        ensures { (script : Script) → Self.tells result script [] [] };

    /// Adds what another report tells, behind its own; or for want of memory nothing.
    fn join(&mut self, more: Self) -> Result<(), Broken>
        ensures joined { (script : Script) (done tasks : List Task) (first later : List Outcome)
            → Self.tells self.old script done first → Self.tells more script tasks later
            → OnOk result (Self.tells self.new script (done ++ tasks) (first ++ later)) }
        ensures kept { (script : Script) (done : List Task) (first : List Outcome)
            → Self.tells self.old script done first
            → OnErr result (Self.tells self.new script done first) }
        ensures refusal { result ≢ Err Broken.Full };
}

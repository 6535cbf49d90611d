//! A report that counts in place of telling, for the generated day. Of activities that did not end as asked it keeps
//! the lines, so that what went wrong is not lost in sums.

ghost use Rattle.std.specs.Prelude.{◌≡◌, ◌≢◌, ◌++◌, ◌&&◌, [], List, Err, IfOk, OnErr, OnOk, true};
ghost use Rattle.script_core.specs.declared.script.Script.{Script};
ghost use Rattle.script_workers.specs.declared.task.Task.{Task};
ghost use Rattle.script_running.specs.Outcomes.{Outcome, is_as_asked};
ghost use Rattle.report_lines.specs.Summed.{IsDayText};
ghost use Rattle.report_lines.specs.Tallies.{AddsUp, AreTallied, IsOneMore, amiss_line, counts_in};

use crate::summing::summary_of;
use crate::sums::{NOTHING, added_by, put_counts};
use crate::{InTurn, PhaseReport, Sums, put_activity};
use base::NoMemory;
use generated_day::QueryCounts;
use script_core::{Script, Task};
use script_running::{Broken, Outcome, Report};
use std::alloc::Global;

/// What a run adds up to, in place of its report.
#[derive(Drop)]
pub struct Tally {
    /// Whether all activities ended as asked.
    pub as_asked: bool,
    /// The lines of those that did not.
    pub amiss: Vec<u8>,
    pub sums: Sums,
    /// What the answered queries count, in their order.
    pub answers: Vec<QueryCounts>,
}

impl Tally {
    /// No activity has ended yet.
    fn new(alloc: Global) -> Tally
        ensures asked { result.as_asked ≡ true }
        ensures amiss { result.amiss.items ≡ [] }
        ensures sums { result.sums
            ≡ record {
              uploaded = 0;
              rounds = 0;
              compacted = 0;
              collected = 0;
              cleaned = 0;
              partials = 0;
            } }
        ensures answers { result.answers.items ≡ [] }
    {
        Tally {
            as_asked: true,
            amiss: Vec::new(alloc),
            sums: NOTHING,
            answers: Vec::new(alloc),
        }
    }

    /// Adds one activity.
    fn tell(&mut self, script: &Script, task: &Task, outcome: &Outcome) -> Result<(), NoMemory>
        ensures asked { OnOk result
            (self.new.as_asked ≡ self.old.as_asked && is_as_asked outcome.now) }
        ensures amiss { OnOk result (self.new.amiss.items
            ≡ self.old.amiss.items ++ amiss_line script.now task.now.work outcome.now) }
        ensures sums { OnOk result ((more : Sums) × IsOneMore outcome.now more
            × AddsUp self.old.sums more self.new.sums) }
        ensures answers { OnOk result
            (self.new.answers.items ≡ self.old.answers.items ++ counts_in outcome.now) }
    {
        put_amiss(&mut self.amiss, script, task, outcome)?;
        put_counts(&mut self.answers, outcome)?;
        self.as_asked = self.as_asked && outcome.is_as_asked();
        self.sums = self.sums.plus(added_by(outcome));
        Ok(())
    }

    /// Adds the activities of another tally; or for want of memory nothing.
    #[tactic(auto, using(crate::proofs::Adding::cut_text))]
    fn take(&mut self, more: Tally) -> Result<(), Broken>
        ensures asked { OnOk result (self.new.as_asked ≡ self.old.as_asked && more.as_asked) }
        ensures amiss { OnOk result
            (self.new.amiss.items ≡ self.old.amiss.items ++ more.amiss.items) }
        ensures sums { OnOk result (AddsUp self.old.sums more.sums self.new.sums) }
        ensures answers { OnOk result
            (self.new.answers.items ≡ self.old.answers.items ++ more.answers.items) }
        ensures kept { OnErr result ((self.new.as_asked ≡ self.old.as_asked)
            × (self.new.amiss.items ≡ self.old.amiss.items) × (self.new.sums ≡ self.old.sums)
            × (self.new.answers.items ≡ self.old.answers.items)) }
        ensures refusal { result ≢ Err Broken.Full }
    {
        let before = self.amiss.len();
        let Ok(()) = self.amiss.extend_from_slice(&more.amiss) else {
            return Err(Broken::NoMemory);
        };
        let Ok(()) = self.answers.extend_from_slice(&more.answers) else {
            self.amiss.truncate(before);
            return Err(Broken::NoMemory);
        };
        self.as_asked = self.as_asked && more.as_asked;
        self.sums = self.sums.plus(more.sums);
        Ok(())
    }

    /// The summary of the generated day; or, where an activity did not end as asked, the lines of those that did not.
    pub fn into_text(self, alloc: Global, script: &Script) -> Result<Vec<u8>, NoMemory>
        ensures { (tasks : List Task) (outcomes : List Outcome)
            → AreTallied self script.now tasks outcomes
            → IfOk result
            (λ text. IsDayText script.now tasks outcomes self.as_asked text.items) }
    {
        if !self.as_asked {
            return Ok(self.amiss);
        }
        let summary = summary_of(alloc, script, self.sums, &self.answers)?;
        let mut text = Vec::new(alloc);
        summary.write(&mut text)?;
        Ok(text)
    }
}

/// Appends the lines of an activity that did not end as asked.
fn put_amiss(
    out: &mut Vec<u8>,
    script: &Script,
    task: &Task,
    outcome: &Outcome,
) -> Result<(), NoMemory>
    ensures { OnOk result (out.new.items
        ≡ out.old.items ++ amiss_line script.now task.now.work outcome.now) }
{
    if outcome.is_as_asked() {
        return Ok(());
    }
    put_activity(out, script, task, outcome, &InTurn)
}

impl Report for Tally {
    ghost use Rattle.report_lines.specs.Tallies.{AreTallied};

    ghost tells = { AreTallied };

    fn add(&mut self, script: &Script, task: &Task, outcome: &Outcome) -> Result<(), NoMemory> {
        self.tell(script, task, outcome)
    }
}

impl PhaseReport for Tally {
    fn empty(alloc: Global) -> Self {
        Tally::new(alloc)
    }

    fn join(&mut self, more: Self) -> Result<(), Broken> {
        self.take(more)
    }
}

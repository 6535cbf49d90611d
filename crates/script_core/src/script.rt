//! What a run does, as its text spells it. Who does which task at which seat is told here too, since the report, both
//! ways to run and the laws on journals have to speak of the same workers.

use crate::BlockList;
use crate::reader::read_script;
use base::NoMemory;
use label_sets::TextList;
use matchers::SelectorList;
use moment_core::{PartitionList, Rules};
use script_fields::ScriptRefusal;
use script_workers::{PhaseList, WorkerList, gateway_count, phase_workers, seats_of};
use std::alloc::Global;

/// What a run does: by which rules, with which gateways and blocks, and in which phases.
#[derive(Drop)]
pub struct Script {
    pub rules: Rules,
    /// The names of the gateways, in the order of their lines.
    pub gateways: TextList,
    /// The partitions of the gateways, in the same order.
    pub partitions: PartitionList,
    /// The blocks in the order of their lines.
    pub blocks: BlockList,
    /// The selectors in the order of the query lines.
    pub selectors: SelectorList,
    pub phases: PhaseList,
}

impl Script {
    ghost use Rattle.std.specs.Prelude.{◌≡◌, ◌≤◌, length, Some, IfOk, MatchResult, slice_get};
    ghost use Rattle.script_workers.specs.declared.phase.Phase.{Phase};
    ghost use Rattle.script_core.specs.declared.script.Script.{Script};
    ghost use Rattle.script_core.specs.Counts.{members_of_script};
    ghost use Rattle.script_core.specs.GivenUp.{GivesUnless, IsGivenUp};
    ghost use Rattle.script_core.specs.Lawful.{IsLawfulScript};
    ghost use Rattle.script_core.specs.Reading.{script_of};
    ghost use Rattle.script_core.specs.Spelling.{Spells};
    ghost use Rattle.script_core.specs.Workers.{workers_of, workers_after, HasStaff, HasSeats};

    /// Reads a script.
    pub fn read(alloc: Global, text: &[u8]) -> Result<Script, ScriptRefusal>
        // What is read is spelled by the text, and what is spelled is read, unless memory or the size of a pattern
        // forbids it.
        ensures found { IfOk result (λ script. Spells text.now script) }
        ensures only { (script : Script) → Spells text.now script
            → MatchResult result (λ read. read ≡ script) (IsGivenUp text.now) }

        // What a caller may rest on.
        ensures lawful { IfOk result (λ script. IsLawfulScript script) }

        // Its lists have no more members together than the text has bytes.
        ensures bounded { IfOk result
            (λ script. members_of_script script ≤ length text.now) }

        // Which refusal it is: the first that the lines in order give, unless the text is given up.
        ensures gives { GivesUnless (IsGivenUp text.now) (λ script. script) result
            (script_of text.now) }
    {
        read_script(alloc, text)
    }

    /// Who does the tasks of a phase, in the order of their first tasks. It goes over the phases before to count their
    /// workers.
    pub fn workers(&self, alloc: Global, phase: usize) -> Result<WorkerList, NoMemory>
        ensures { IfOk result (λ workers. workers ≡ workers_of self.now phase) }
    {
        let gateways = gateway_count(&self.gateways);
        let earlier = &self.phases.members()[..phase.min(self.phases.len())];
        let before = seats_of(alloc, gateways, earlier)?;
        self.workers_after(alloc, phase, before)
    }

    /// A law: whoever does a task of a phase is among its workers, each of them does one, and nobody is there twice. They
    /// stand in the order of their first tasks, and the places in `Worker::tasks` are those of all the worker's tasks.
    pub fn workers_are_staff(&self, phase: usize)
        ensures { (one : Phase) → slice_get self.now.phases phase ≡ Some one
            → HasStaff self.now one }
    {
        let _phase = phase;
    }

    /// A law: in a lawful script a worker's seat is the number of workers of the phases before, its place in its own phase,
    /// and one. So seats count from 1 over the whole script, and no two workers share one.
    pub fn workers_are_seated(&self, phase: usize)
        ensures { IsLawfulScript self.now → (one : Phase)
            → slice_get self.now.phases phase ≡ Some one → HasSeats self.now phase one }
    {
        let _phase = phase;
    }

    /// Who does the tasks of a phase, where the phases before need `before` workers, which are then not counted again.
    pub fn workers_after(
        &self,
        alloc: Global,
        phase: usize,
        before: u32,
    ) -> Result<WorkerList, NoMemory>
        ensures { IfOk result
            (λ workers. workers ≡ workers_after self.now before (slice_get self.now.phases phase)) }
    {
        match self.phases.get(phase) {
            Some(phase) => {
                let gateways = gateway_count(&self.gateways);
                phase_workers(alloc, gateways, before, phase.tasks.members())
            }
            None => Ok(WorkerList::new(alloc)),
        }
    }
}

//! A script that is being read: what the lines so far leave to the next one. A text as a whole and one that comes part
//! by part are read by the same steps on it, so that both give the same script and the same refusals.

ghost use Rattle.std.specs.Prelude.{◌≡◌, ◌≤◌, ◌++◌, OnOk, length};
ghost use Rattle.script_fields.specs.Limits.{most_tasks, most_gateways};
ghost use Rattle.script_workers.specs.Works.{has_compaction};

use crate::inline_block::InlineBlock;
use crate::{Block, BlockList, Script};
use base::NoMemory;
use label_sets::{Series, Text, TextList};
use matchers::{Selector, SelectorList};
use moment_core::{Partition, PartitionList, Rules};
use script_fields::{LineCause, LineRefusal, ScriptRefusal, are_within, text_place};
use script_workers::{Hand, Phase, PhaseList, Task, Work, add_hands, gateway_count};
use std::alloc::Global;
use std::collections::BTreeSet;
use std::mem;
use ulid_core::Ulid;

const MOST_GATEWAYS: usize = 16;

const MOST_BLOCKS: usize = 4_096;

const MOST_TASKS: u32 = 65_536;

/// How many workers one phase may need.
const MOST_WORKERS: usize = 64;

/// What the lines of a script so far leave to the next one.
#[derive(Drop)]
pub(crate) struct Draft {
    pub rules: Rules,
    pub gateways: TextList,
    /// The partitions of the gateways.
    pub partitions: PartitionList,
    /// The places of the gateways that have a sync line, each once.
    pub synced: Vec<u32>,
    /// The blocks before the last inline one.
    pub blocks: BlockList,
    /// The last inline block.
    pub last: Option<InlineBlock>,
    /// The shelf's blocks behind it.
    pub shelved: BlockList,
    /// Whether a series line may follow: the line before, but for silent ones, was a block line or a series line.
    pub continues: bool,
    /// The ULIDs of all blocks.
    pub ulids: BTreeSet<Ulid>,
    pub selectors: SelectorList,
    /// The phases before the last.
    pub phases: PhaseList,
    /// The last phase.
    pub phase: Option<Phase>,
    /// Who does the tasks of the last phase.
    pub hands: Vec<Hand>,
    /// How many tasks all phases have.
    pub activities: u32,
    ghost few_gateways: { length gateways ≤ most_gateways },
    ghost few_activities: { activities ≤ most_tasks },
    ghost few_selectors: { length selectors ≤ activities },
}

impl Draft {
    ghost use Rattle.std.specs.Prelude.{◌≡◌, ◌+◌, [], None, OnOk, ok_or, option_map, length};
    ghost use Rattle.base.specs.Reading.{Gives};
    ghost use Rattle.script_fields.specs.declared.cause.LineCause.TheVariants as causes;
    ghost use Rattle.script_fields.specs.declared.line_refusal.LineRefusal.TheVariants as line_refusals;
    ghost use Rattle.script_fields.specs.declared.script_refusal.ScriptRefusal.TheVariants as script_refusals;
    ghost use Rattle.script_core.specs.State.{start, end_block, gateway_named, add_gateway, is_declared, begin_block, add_shelf, test_series, add_series, begin_phase, add_task, add_query, note_sync, are_all_synced, phase_compacts, declare, finish, stored_script, store_inline, store_blocks, store_phase, last_of};
    ghost use Rattle.script_core.specs.View.{state_of};

    /// What is there before the first line.
    #[tactic(auto, unfolding(crate::specs::View::state_of, crate::specs::State::start))]
    pub(crate) fn new(alloc: Global, rules: Rules) -> Draft
        ensures { state_of result ≡ start rules }
    {
        Draft {
            rules,
            gateways: TextList::new(alloc),
            partitions: PartitionList::new(alloc),
            synced: Vec::new(alloc),
            blocks: BlockList::new(alloc),
            last: None,
            shelved: BlockList::new(alloc),
            continues: false,
            ulids: BTreeSet::new(alloc),
            selectors: SelectorList::new(alloc),
            phases: PhaseList::new(alloc),
            phase: None,
            hands: Vec::new(alloc),
            activities: 0,
        }
    }

    /// What is left after the last line, as a script.
    pub(crate) fn finish(mut self, alloc: Global) -> Result<Script, ScriptRefusal>
        ensures { Gives script_refusals.NoMemory (λ script. script) result
            (finish (state_of self)) }
    {
        match self.end(alloc) {
            Ok(()) => Ok(self.into_script()),
            Err(refusal) => {
                drop(self);
                Err(refusal)
            }
        }
    }

    /// The last block and the last phase join those before them.
    #[tactic(auto, unfolding(crate::specs::View::state_of, crate::specs::State::finish))]
    fn end(&mut self, alloc: Global) -> Result<(), ScriptRefusal>
        ensures { Gives script_refusals.NoMemory (λ _. stored_script (state_of self.new)) result
            (finish (state_of self.old)) }
    {
        self.end_block()?;
        self.store_blocks(alloc)?;
        self.store_phase(alloc)?;
        Ok(())
    }

    /// The script, where the last block and the last phase have joined those before them.
    #[tactic(auto, unfolding(crate::specs::View::state_of))]
    fn into_script(self) -> Script
        ensures { result ≡ stored_script (state_of self) }
    {
        Script {
            rules: self.rules,
            gateways: self.gateways,
            partitions: self.partitions,
            blocks: self.blocks,
            selectors: self.selectors,
            phases: self.phases,
        }
    }

    /// No series line follows the last block's lines.
    #[tactic(auto, unfolding(crate::specs::View::state_of, crate::specs::State::end_block))]
    pub(crate) fn end_block(&mut self) -> Result<(), ScriptRefusal>
        ensures { Gives script_refusals.NoMemory (λ _. state_of self.new) result
            (end_block (state_of self.old)) }
    {
        if let Some(block) = &self.last {
            if block.series.is_empty() {
                let cause = LineCause::EmptyInline;
                return Err(ScriptRefusal::BadLine(block.line, cause));
            }
        }
        self.continues = false;
        Ok(())
    }

    /// The last inline block joins those before it, and the shelf's blocks behind it do.
    #[tactic(auto, unfolding(crate::specs::View::state_of))]
    fn store_blocks(&mut self, alloc: Global) -> Result<(), NoMemory>
        ensures { OnOk result (state_of self.new ≡ store_blocks (state_of self.old)) }
    {
        self.store_inline(alloc)?;
        let shelved = mem::replace(&mut self.shelved, BlockList::new(alloc));
        push_all(&mut self.blocks, shelved)
    }

    #[tactic(auto, unfolding(crate::specs::View::state_of))]
    fn store_inline(&mut self, alloc: Global) -> Result<(), NoMemory>
        ensures { OnOk result (state_of self.new ≡ store_inline (state_of self.old)) }
    {
        if let Some(block) = self.last.take() {
            self.blocks.push(block.into_block(alloc)?)?;
        }
        Ok(())
    }

    /// The last phase joins those before it.
    #[tactic(auto, unfolding(crate::specs::View::state_of))]
    fn store_phase(&mut self, alloc: Global) -> Result<(), NoMemory>
        ensures { OnOk result (state_of self.new ≡ store_phase (state_of self.old)) }
    {
        self.hands = Vec::new(alloc);
        if let Some(phase) = self.phase.take() {
            self.phases.push(phase)?;
        }
        Ok(())
    }

    /// The place of the gateway of this name.
    #[tactic(auto, unfolding(crate::specs::View::state_of))]
    pub(crate) fn gateway_named(&self, name: &str) -> Option<u32>
        ensures { result ≡ gateway_named (state_of self.now).gateways name.now }
    {
        let place = text_place(self.gateways.members(), name)?;
        Some(place as u32)
    }

    #[tactic(auto, unfolding(crate::specs::View::state_of, crate::specs::State::add_gateway))]
    pub(crate) fn add_gateway(
        &mut self,
        name: Text,
        partition: Partition,
    ) -> Result<(), LineRefusal>
        ensures { Gives line_refusals.NoMemory (λ _. state_of self.new) result
            (add_gateway (state_of self.old) name partition) }
    {
        LineRefusal::TooMany.unless(self.gateways.len() < MOST_GATEWAYS)?;
        self.gateways.push(name)?;
        self.partitions.push(partition)?;
        Ok(())
    }

    #[tactic(auto, unfolding(crate::specs::View::state_of))]
    pub(crate) fn is_declared(&self, ulid: Ulid) -> bool
        ensures { result ≡ is_declared (state_of self.now) ulid }
    {
        self.ulids.contains(&ulid)
    }

    /// The ULID joins those of all blocks, unless it is one of them.
    #[tactic(auto, unfolding(crate::specs::View::state_of))]
    fn declare(&mut self, ulid: Ulid) -> Result<(), LineRefusal>
        ensures { Gives line_refusals.NoMemory (λ _. state_of self.new) result
            (declare (state_of self.old) ulid) }
    {
        LineRefusal::BlockChanged.unless(!self.is_declared(ulid))?;
        LineRefusal::TooMany.unless(self.ulids.len() < MOST_BLOCKS)?;
        self.ulids.insert(ulid)?;
        Ok(())
    }

    #[tactic(auto, unfolding(crate::specs::View::state_of, crate::specs::State::begin_block))]
    pub(crate) fn begin_block(
        &mut self,
        alloc: Global,
        block: InlineBlock,
    ) -> Result<(), LineRefusal>
        ensures { Gives line_refusals.NoMemory (λ _. state_of self.new) result
            (begin_block (state_of self.old) (last_of block)) }
    {
        if let Err(refusal) = self.declare_next(alloc, block.ulid) {
            drop(block);
            return Err(refusal);
        }
        drop(mem::replace(&mut self.last, Some(block)));
        self.continues = true;
        Ok(())
    }

    /// Declares the ULID of an inline block, before which the others join those before them.
    #[tactic(auto, unfolding(crate::specs::View::state_of))]
    fn declare_next(&mut self, alloc: Global, ulid: Ulid) -> Result<(), LineRefusal>
        ensures { Gives line_refusals.NoMemory (λ _. state_of self.new) result
            (declare (store_blocks (state_of self.old)) ulid) }
    {
        self.declare(ulid)?;
        self.store_blocks(alloc)?;
        Ok(())
    }

    #[tactic(auto, unfolding(crate::specs::View::state_of, crate::specs::State::add_shelf))]
    pub(crate) fn add_shelf_block(&mut self, block: Block) -> Result<(), LineRefusal>
        ensures { Gives line_refusals.NoMemory (λ _. state_of self.new) result
            (add_shelf (state_of self.old) block) }
    {
        if let Err(refusal) = self.declare(block.ulid) {
            drop(block);
            return Err(refusal);
        }
        self.shelved.push(block)?;
        Ok(())
    }

    /// Adds a series to the last block.
    #[tactic(auto, unfolding(crate::specs::View::state_of, crate::specs::State::add_series))]
    pub(crate) fn add_series(&mut self, series: Series) -> Result<(), LineRefusal>
        ensures { Gives line_refusals.NoMemory (λ _. state_of self.new) result
            (add_series (state_of self.old) series) }
    {
        self.test_series(&series)?;
        if let Some(block) = &mut self.last {
            block.insert_series(series)?;
        }
        Ok(())
    }

    /// Whether a series fits the last block.
    #[tactic(auto, unfolding(crate::specs::View::state_of))]
    fn test_series(&self, series: &Series) -> Result<(), LineRefusal>
        ensures { result
            ≡ test_series (state_of self.now) series.now.labels series.now.samples }
    {
        let Some(block) = &self.last else {
            return Err(LineRefusal::Bad(LineCause::NoBlock));
        };
        let inside = are_within(series.samples.members(), block.min_time, block.max_time);
        LineCause::OutsideBlock.unless(inside)?;
        LineCause::RepeatedSeries.unless(!block.has_series(&series.labels))?;
        LineCause::NoBlock.unless(self.continues)
    }

    #[tactic(auto, unfolding(crate::specs::View::state_of, crate::specs::State::begin_phase))]
    pub(crate) fn begin_phase(&mut self, alloc: Global, phase: Phase) -> Result<(), NoMemory>
        ensures { OnOk result (state_of self.new ≡ begin_phase (state_of self.old) phase) }
    {
        self.store_phase(alloc)?;
        self.phase = Some(phase);
        Ok(())
    }

    /// Adds a task to the last phase.
    #[tactic(auto, unfolding(crate::specs::View::state_of, crate::specs::State::add_task))]
    pub(crate) fn add_task(&mut self, line: u32, work: Work) -> Result<(), LineRefusal>
        ensures gives { Gives line_refusals.NoMemory (λ _. state_of self.new) result
            (add_task (state_of self.old) line work) }
        ensures selectors { self.new.selectors ≡ self.old.selectors }
        ensures counted { OnOk result (self.new.activities ≡ self.old.activities + 1) }
    {
        LineRefusal::TooMany.unless(self.activities < MOST_TASKS)?;
        let gateways = gateway_count(&self.gateways);
        let place = self.next_place()?;
        add_hands(&mut self.hands, gateways, place, &work)?;
        LineRefusal::TooMany.unless(self.hands.len() <= MOST_WORKERS)?;
        if let Some(phase) = &mut self.phase {
            phase.tasks.push(Task { line, work })?;
        }
        self.activities += 1;
        Ok(())
    }

    /// Whether the last phase has a compaction.
    #[tactic(auto, unfolding(crate::specs::View::state_of))]
    pub(crate) fn has_compaction(&self) -> bool
        ensures { result ≡ phase_compacts (state_of self.now).phase }
    {
        match &self.phase {
            Some(phase) => has_compaction(phase.tasks.members()),
            None => false,
        }
    }

    /// The place of the next task in the last phase.
    fn next_place(&self) -> Result<u64, LineCause>
        ensures { result
            ≡ ok_or (option_map (λ phase. length phase.tasks) self.now.phase) causes.NoPhase }
    {
        let phase = self.phase.as_ref().ok_or(LineCause::NoPhase)?;
        Ok(phase.tasks.len() as u64)
    }

    #[tactic(auto, unfolding(crate::specs::View::state_of, crate::specs::State::add_query))]
    pub(crate) fn add_query(
        &mut self,
        line: u32,
        low: i64,
        high: i64,
        selector: Selector,
    ) -> Result<(), LineRefusal>
        ensures { Gives line_refusals.NoMemory (λ _. state_of self.new) result
            (add_query (state_of self.old) line low high selector) }
    {
        let place = self.selectors.len() as u32;
        let work = Work::Query {
            low,
            high,
            selector: place,
        };
        self.add_task(line, work)?;
        self.selectors.push(selector)?;
        Ok(())
    }

    #[tactic(auto, unfolding(crate::specs::View::state_of, crate::specs::State::note_sync))]
    pub(crate) fn note_sync(&mut self, gateway: u32) -> Result<(), NoMemory>
        ensures { OnOk result (state_of self.new ≡ note_sync (state_of self.old) gateway) }
    {
        if !self.synced.contains(&gateway) {
            self.synced.push(gateway)?;
        }
        Ok(())
    }

    #[tactic(auto, unfolding(crate::specs::View::state_of))]
    pub(crate) fn are_all_synced(&self) -> bool
        ensures { result ≡ are_all_synced (state_of self.now) }
    {
        let gateways = self.gateways.len() as u32;
        (0..gateways).all(|gateway| self.synced.contains(&gateway))
    }
}

/// Whether some task of a phase is a compaction.
fn has_compaction(tasks: &[Task]) -> bool
    ensures { result ≡ has_compaction tasks.now }
{
    tasks.iter().any(|task| task.work.is_compaction())
}

/// Adds blocks at the end.
fn push_all(blocks: &mut BlockList, more: BlockList) -> Result<(), NoMemory>
    ensures { OnOk result (blocks.new ≡ blocks.old ++ more) }
{
    for block in more.into_vec() {
        blocks.push(block)?;
    }
    Ok(())
}

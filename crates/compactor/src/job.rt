//! What a compaction does next: it takes the groups in order and plans each once. What a new block makes possible in
//! its group is left to the next round, since only a sync sees that block.

ghost use Rattle.std.specs.Prelude.{◌≡◌, ◌≤◌, ◌++◌, length, map, IfOk};
ghost use Rattle.group_planner.specs.Members.{ulids_of as ulids_of_all};
ghost use Rattle.compactor.specs.Jobs.{IsFor, Takes};

use base::{NoMemory, TryCopy};
use block_meta::Meta;
use group_planner::{Group, planned_metas};
use label_sets::LabelSet;
use std::alloc::Global;
use std::collections::VecDeque;
use ulid_core::Ulid;

/// The blocks of a group that are compacted into one.
#[derive(Drop)]
pub struct Job {
    /// The group's labels.
    pub labels: LabelSet,
    pub first: Meta,
    pub others: VecDeque<Meta>,
    /// The ULIDs of all of them.
    pub parents: VecDeque<Ulid>,
}

/// Takes groups from the front, until there is one of which something is to be compacted.
pub fn next_job(alloc: Global, groups: &mut VecDeque<Group>) -> Result<Option<Job>, NoMemory>
    ensures takes { IfOk result (Takes groups.old.items groups.new.items) }
    ensures fewer { length groups.new.items ≤ length groups.old.items }
{
    while let Some(group) = groups.pop_front() {
        if let Some(job) = job_of(alloc, group)? {
            return Ok(Some(job));
        }
    }
    Ok(None)
}

/// The blocks of a group that are compacted into one, if there are any.
fn job_of(alloc: Global, group: Group) -> Result<Option<Job>, NoMemory>
    ensures { IfOk result (IsFor group) }
{
    let Group {
        resolution: _,
        labels,
        members,
    } = group;
    let plan = planned_metas(members.members());
    let [first, others @ ..] = plan else {
        return Ok(None);
    };
    let parents = ulids(alloc, plan)?;
    let others = copies(alloc, others)?;
    let first = first.copy()?;
    Ok(Some(Job {
        labels,
        first,
        others,
        parents,
    }))
}

fn copies(alloc: Global, metas: &[Meta]) -> Result<VecDeque<Meta>, NoMemory>
    ensures { IfOk result (λ copied. copied.items ≡ metas.now) }
{
    let mut copied = VecDeque::new(alloc);
    for meta in metas {
        copied.push_back(meta.copy()?)?;
    }
    Ok(copied)
}

fn ulids(alloc: Global, metas: &[Meta]) -> Result<VecDeque<Ulid>, NoMemory>
    ensures { IfOk result (λ made. made.items ≡ ulids_of_all metas.now) }
{
    let mut made = VecDeque::new(alloc);
    for meta in metas {
        made.push_back(meta.ulid)?;
    }
    Ok(made)
}

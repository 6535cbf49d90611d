//! What is looked up of a seat: whose it is, and its first and its last entry. They are gathered before the walk, since
//! only the entries behind one tell whether it is the last of its seat.

ghost use Rattle.std.specs.Prelude.{◌≡◌, ◌+◌, ◌-◌, ◌^◌, ◌||◌, ◌&&◌, ◌==◌, ℕ, length, min, slice_get, IfOk, OnOk, None, option_map};
ghost use Rattle.std.specs.BTreeMap.{get};
ghost use Rattle.std.specs.BTreeSet.{contains};
ghost use Rattle.std.specs.List.{last_or, list_any};
ghost use Rattle.std.specs.Ordering.{nat_cmp};
ghost use Rattle.script_core.specs.Lawful.{IsLawfulScript};
ghost use Rattle.world_core.specs.Journals.{of_seat};
ghost use Rattle.breach_finding.specs.Tables.{AreAdded, AreCompactors, AreSeatsOf, AreTablesOf, compacts_among, compacts_at, tasks_at};

use base::NoMemory;
use script_core::{Script, Task};
use script_workers::Worker;
use std::alloc::Global;
use std::collections::{BTreeMap, BTreeSet};
use world_core::Entry;

/// What is looked up by seats.
#[derive(Drop)]
pub(crate) struct Tables {
    /// The gateway of each seat that is one's.
    pub(crate) gateways: BTreeMap<u32, u32>,
    /// The seats of the workers that compact.
    pub(crate) compactors: BTreeSet<u32>,
    /// The moment of the first entry of each seat.
    pub(crate) begins: BTreeMap<u32, u64>,
    /// The number of the last entry of each seat.
    pub(crate) lasts: BTreeMap<u32, u64>,
}

/// What is looked up of a journal of the script.
pub(crate) fn tables_of(
    alloc: Global,
    script: &Script,
    journal: &[Entry],
) -> Result<Tables, NoMemory>
    ensures { IsLawfulScript script.now → IfOk result (AreTablesOf script.now journal.now) }
{
    let (gateways, compactors) = seats_of(alloc, script)?;
    let begins = first_moments(alloc, journal)?;
    let lasts = last_entries(alloc, journal)?;
    Ok(Tables {
        gateways,
        compactors,
        begins,
        lasts,
    })
}

/// Adds the seats of a phase's workers.
fn add_seats(seats: &mut BTreeMap<u32, u32>, workers: &[Worker]) -> Result<(), NoMemory>
    ensures { OnOk result (AreAdded workers.now seats.old seats.new) }
{
    for worker in workers {
        if let Some(gateway) = worker.gateway {
            seats.insert(worker.seat, gateway)?;
        }
    }
    Ok(())
}

/// Adds the seats of those of a phase's workers that compact.
fn add_compactors(
    compactors: &mut BTreeSet<u32>,
    tasks: &[Task],
    workers: &[Worker],
) -> Result<(), NoMemory>
    ensures { OnOk result ((seat : ℕ) → contains nat_cmp compactors.new seat
        ≡ (contains nat_cmp compactors.old seat || compacts_among tasks.now seat workers.now)) }
{
    for worker in workers {
        if compacts(tasks, worker.tasks.members()) {
            compactors.insert(worker.seat)?;
        }
    }
    Ok(())
}

/// Whether a compaction is among the tasks at these places.
fn compacts(tasks: &[Task], places: &[u64]) -> bool
    ensures { result ≡ list_any (compacts_at tasks.now) places.now }
{
    for place in places {
        if compacts_at(tasks, *place) {
            return true;
        }
    }
    false
}

/// Whether the task at a place is a compaction.
fn compacts_at(tasks: &[Task], place: u64) -> bool
    ensures { result ≡ compacts_at tasks.now place }
{
    match tasks.get(place as usize) {
        Some(task) => task.work.is_compaction(),
        None => false,
    }
}

/// The tasks of the phase at a place.
fn tasks_at(script: &Script, place: usize) -> &[Task]
    ensures { result.now ≡ tasks_at script.now place }
{
    match script.phases.get(place) {
        Some(phase) => phase.tasks.members(),
        None => &[],
    }
}

/// Whose gateway's each seat is, and the seats of the workers that compact.
fn seats_of(alloc: Global, script: &Script) -> Result<(BTreeMap<u32, u32>, BTreeSet<u32>), NoMemory>
    ensures gateways { IsLawfulScript script.now
        → IfOk result (λ seats. AreSeatsOf script.now (length script.now.phases) seats.0) }
    ensures compactors { IfOk result
        (λ seats. AreCompactors script.now (length script.now.phases) seats.1) }
{
    let mut gateways = BTreeMap::new(alloc);
    let mut compactors = BTreeSet::new(alloc);
    let mut before = 0;
    for number in 0..script.phases.len() {
        let workers = script.workers_after(alloc, number, before)?;
        add_seats(&mut gateways, workers.members())?;
        add_compactors(&mut compactors, tasks_at(script, number), workers.members())?;
        before = seats_behind(before, workers.len());
    }
    Ok((gateways, compactors))
}

/// How many seats are taken behind so many workers more.
fn seats_behind(before: u32, count: usize) -> u32
    ensures { result ≡ min (before + count) (2 ^ 32 - 1) }
{
    before.saturating_add(u32::try_from(count).unwrap_or(u32::MAX))
}

/// The moment of the first entry of each seat.
fn first_moments(alloc: Global, journal: &[Entry]) -> Result<BTreeMap<u32, u64>, NoMemory>
    ensures { IfOk result (λ begins. (seat : ℕ) → get nat_cmp begins seat
        ≡ option_map (λ e. e.moment.ms) (slice_get (of_seat seat journal.now) 0)) }
{
    let mut begins = BTreeMap::new(alloc);
    for entry in journal {
        if !begins.contains_key(&entry.seat) {
            begins.insert(entry.seat, entry.moment.ms)?;
        }
    }
    Ok(begins)
}

/// The number of the last entry of each seat.
fn last_entries(alloc: Global, journal: &[Entry]) -> Result<BTreeMap<u32, u64>, NoMemory>
    ensures { IfOk result (λ lasts. (seat : ℕ) → get nat_cmp lasts seat
        ≡ option_map (λ e. e.seq) (last_or None (of_seat seat journal.now))) }
{
    let mut lasts = BTreeMap::new(alloc);
    for entry in journal {
        lasts.insert(entry.seat, entry.seq)?;
    }
    Ok(lasts)
}

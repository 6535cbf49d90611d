//! A world that threads share by turns: whoever has the turn takes the world, does one operation on it and lays it
//! back. A worker has a pass, of which proofs know what the journal had at least when it was used last.

ghost use Rattle.std.specs.Prelude.{◌≡◌, false, List, ℕ, ◌+◌, ◌<◌, ◌^◌, ◌-◌, [], ◌∷◌, Some, None, IfOk, IfErr, MatchResult};
ghost use Rattle.bucket_core.specs.Asking.{Call};
ghost use Rattle.world_core.specs.Asking.{IsAllAsked};
ghost use Rattle.world_core.specs.Machines.{is_full, is_wanting};
ghost use Rattle.world_core.specs.Operations.{IsLawful};
ghost use Rattle.world_turn.specs.Closing.{AllJoined, Closes};
ghost use Rattle.world_turn.specs.Opening.{ComesFrom, opening_of};
ghost use Rattle.world_turn.specs.Passes.{table_of, view_of};
ghost use Rattle.world_turn.specs.Rule.{root};
ghost use Rattle.world_turn.specs.Turns.{Acts, IsLater, IsNew, IsSplit, IsJoined, Looks};

use crate::plays::{Compare, Look, Seating, Turns};
use crate::view::View;
use crate::{Closed, Pass};
use atomic_table::{Refused, Seat, Table};
use base::NoMemory;
use bucket_core::Bucket;
use std::alloc::{AllocFailed, Global};
use std::snapshot::Snapshot;
use std::sync::Wait;
use world_core::{Acted, Op, World};

/// The word that counts the journal's entries.
pub(crate) const COUNT: usize = 0;

/// The word of the turn.
pub(crate) const TURN: usize = 1;

/// A world behind a turn.
///
/// Threads share it by reference, each with a `Pass` of its own, and do one operation at a time on the world.
#[derive(Drop)]
pub struct Shared<B: Bucket> {
    pub(crate) table: Table<Option<World<B>>, View, Snapshot<World<B>>, Turns<B>, Global>,
    ghost sized: { (table.shared.table_id.words ≡ 2) × (table.shared.table_id.slots ≡ 1) },
    ghost fresh: { table.shared.key.value.journal ≡ [] },
}

/// A pass while it is used.
pub(crate) type Place<B> = Seat<Option<World<B>>, View>;

impl<B: Bucket> Shared<B> {
    /// Shares a world whose journal is empty. The pass is the root, which has seat 0.
    pub fn open(alloc: Global, world: World<B>) -> Result<(Shared<B>, Pass), (NoMemory, World<B>)>
        requires { world.journal ≡ [] }
        ensures pass { IfOk result (λ r. (table_of r.1 ≡ r.0.table.shared.table_id)
            × (r.1.seat ≡ 0) × (r.1.splits ≡ 0)
            × (view_of r.1 ≡ root (opening_of B.told world))) }
        ensures opened { IfOk result (λ r. r.0.table.shared.key.value ≡ world) }
        ensures err { IfErr result (λ e. e.1 ≡ world) }
    {
        let opened = Snapshot::of(&world);
        let slots = slots_of(alloc, world)?;
        match Table::new(alloc, &[0, 0], slots, &opened) {
            Ok((table, place)) => {
                let root = Pass {
                    badge: place.into_badge(),
                    seat: 0,
                    splits: 0,
                    refused: false,
                    wanted: false,
                };
                Ok((Shared { table }, root))
            }
            Err(refused) => {
                let Refused { slots } = refused;
                Err((NoMemory, taken_back(slots)))
            }
        }
    }

    /// Does one operation and adds its entry, unless the journal is full. It may wait for other passes.
    pub fn act<R: Wait>(&self, rt: &R, pass: Pass, op: Op) -> (Acted, Pass)
        requires own { table_of pass ≡ self.now.table.shared.table_id }
        requires lawful { IsLawful op }
        ensures pass { (table_of result.1 ≡ table_of pass) × (result.1.seat ≡ pass.seat)
            × (result.1.splits ≡ pass.splits) }
        ensures acts { Acts (view_of pass) op result.0 (view_of result.1) }
        ensures later { IsLater (view_of pass) (view_of result.1) }
    {
        let Pass {
            badge,
            seat,
            splits,
            refused,
            wanted,
        } = pass;
        let mut place = badge.into_seat();
        let mut world = self.take_turn(rt, &mut place);
        let asked = Snapshot::of(&op);
        let acted = world.act(seat, op);
        self.lay(&mut place, world);
        self.settle(&mut place, &acted, &asked);
        let badge = place.into_badge();
        let pass = Pass {
            badge,
            seat,
            splits,
            refused: refused | met_full(&acted),
            wanted: wanted | wants_memory(&acted),
        };
        (acted, pass)
    }

    /// How many entries the journal has at one moment. From now on each entry of the pass has a greater number. It does not wait.
    pub fn look(&self, pass: Pass) -> (u64, Pass)
        requires own { table_of pass ≡ self.now.table.shared.table_id }
        ensures pass { (table_of result.1 ≡ table_of pass) × (result.1.seat ≡ pass.seat)
            × (result.1.splits ≡ pass.splits) }
        ensures looks { Looks (view_of pass) result.0 (view_of result.1) }
    {
        let Pass {
            badge,
            seat,
            splits,
            refused,
            wanted,
        } = pass;
        let mut place = badge.into_seat();
        let count = self.table.shared.load::<Look>(&mut place, COUNT);
        let badge = place.into_badge();
        let pass = Pass {
            badge,
            seat,
            splits,
            refused,
            wanted,
        };
        (count, pass)
    }

    /// Makes a pass of the next seat, which has seen what the root has. It takes no memory.
    pub fn split_pass(&self, root: Pass) -> (Pass, Pass)
        requires own { (table_of root ≡ self.now.table.shared.table_id) × (root.seat ≡ 0) }
        requires few { root.splits < 2 ^ 32 - 1 }
        ensures root { (table_of result.0 ≡ table_of root) × (result.0.seat ≡ 0)
            × (result.0.splits ≡ root.splits + 1)
            × IsSplit (view_of root) (view_of result.0) }
        ensures new { (table_of result.1 ≡ table_of root) × (result.1.seat ≡ root.splits + 1)
            × IsNew (view_of root) (view_of result.1) }
    {
        let Pass {
            badge,
            seat,
            splits,
            refused,
            wanted,
        } = root;
        let mut place = badge.into_seat();
        let new = self.table.shared.split_seat::<Seating>(&mut place);
        let root = Pass {
            badge: place.into_badge(),
            seat,
            splits: splits + 1,
            refused,
            wanted,
        };
        let worker = Pass {
            badge: new.into_badge(),
            seat: splits + 1,
            splits: 0,
            refused: false,
            wanted: false,
        };
        (root, worker)
    }

    /// Takes a pass in again. The root has then seen what it had seen. It takes no memory.
    pub fn join_pass(&self, root: Pass, worker: Pass) -> Pass
        requires own { (table_of root ≡ self.now.table.shared.table_id) × (root.seat ≡ 0) }
        requires worker { table_of worker ≡ self.now.table.shared.table_id }
        ensures pass { (table_of result ≡ table_of root) × (result.seat ≡ 0)
            × (result.splits ≡ root.splits) }
        ensures joined { IsJoined (view_of root) (view_of worker) (view_of result) }
    {
        let Pass {
            badge,
            seat,
            splits,
            refused,
            wanted,
        } = root;
        let mut place = badge.into_seat();
        let Pass {
            badge: other,
            seat: _,
            splits: _,
            refused: also_refused,
            wanted: also_wanted,
        } = worker;
        self.table
            .shared
            .join_seat::<Seating>(&mut place, other.into_seat());
        self.table.shared.load::<Compare>(&mut place, COUNT);
        let badge = place.into_badge();
        Pass {
            badge,
            seat,
            splits,
            refused: refused | also_refused,
            wanted: wanted | also_wanted,
        }
    }

    /// The world comes out again, once every pass that was split was joined, with all that the root knew. It takes no memory.
    pub fn close(self, root: Pass) -> Closed<B>
        requires own { (table_of root ≡ self.table.shared.table_id) × (root.seat ≡ 0) }
        requires all { AllJoined (view_of root) }
        ensures root { result.root.value ≡ root }
        ensures closes { Closes (view_of root) result.world.tick result.world.journal }
        ensures comes { ComesFrom B.told (opening_of B.told self.table.shared.key.value)
            result.world }

        // If all that the bucket was asked was journaled as the world was opened, it still is, unless memory was wanted.
        ensures all { (view_of root).wanted ≡ false → (before : List Call)
            → IsAllAsked B.told before self.table.shared.key.value
            → IsAllAsked B.told before result.world }
    {
        let known = Snapshot::of(&root);
        let Shared { table } = self;
        let Pass {
            badge,
            seat: _,
            splits: _,
            refused,
            wanted,
        } = root;
        let mut closed = table.close_with(badge.into_seat());
        let slot = closed.take(0);
        closed.free();
        Closed {
            world: world_in_slot(slot),
            root: known,
            refused,
            wanted,
        }
    }
}

/// The slots of the table: one, with the world. For want of memory the world comes back.
fn slots_of<W>(alloc: Global, world: W) -> Result<Vec<Option<W>>, (NoMemory, W)>
    ensures { MatchResult result (λ slots. slots.items ≡ Some world ∷ []) (λ e. e.1 ≡ world) }
{
    let mut slots = Vec::new(alloc);
    match slots.push(Some(world)) {
        Ok(()) => Ok(slots),
        Err(failed) => {
            let AllocFailed { value } = failed;
            slots.destroy_empty();
            Err((NoMemory, world_in_slot(value)))
        }
    }
}

fn taken_back<W>(mut slots: Vec<Option<W>>) -> W
    requires { (w : W) × (slots.items ≡ Some w ∷ []) }
    ensures { slots.items ≡ Some result ∷ [] }
{
    let slot = slots.pop();
    slots.destroy_empty();
    world_in_slot(world_in_slot(slot))
}

fn world_in_slot<W>(slot: Option<W>) -> W
    requires { (w : W) × (slot ≡ Some w) }
    ensures { slot ≡ Some result }
{
    match slot {
        Some(world) => world,
        None => unreachable!(),
    }
}

/// Whether an operation was answered that the journal is full.
fn met_full(acted: &Acted) -> bool
    ensures { result ≡ is_full acted.now }
{
    matches!(acted, Acted::Full)
}

/// Whether memory was wanted for an operation.
fn wants_memory(acted: &Acted) -> bool
    ensures { result ≡ is_wanting acted.now }
{
    matches!(acted, Acted::NoMemory)
}

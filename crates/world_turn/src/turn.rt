//! The steps of one turn: take it, lift the world out of the table, lay it back, append, give the turn back.
ghost use Rattle.std.specs.Prelude.{◌≡◌, ◌≢◌, ℕ, ◌≤◌, [], ◌∷◌, ◌++◌, length, Bool, true, false, Some, None};
ghost use Rattle.world_core.specs.Limits.{most_entries};
ghost use Rattle.world_core.specs.Machines.{gained};
ghost use Rattle.world_core.specs.declared.entry.Entry.{Entry};
ghost use Rattle.world_turn.specs.Opening.{AsksFrom, ComesFrom};
ghost use Rattle.world_turn.specs.Rule.{opened_of};
ghost use Rattle.world_turn.specs.Steps.{holding, adding, leaving, leaving_full, leaving_short};
ghost use Rattle.world_turn.specs.Turns.{Finds, settled};

use crate::Shared;
use crate::plays::{Append, Give, GiveFull, GiveShort, Take};
use crate::shared::{COUNT, Place, TURN};
use bucket_core::Bucket;
use crossbeam_utils::Backoff;
use std::snapshot::Snapshot;
use std::sync::Wait;
use world_core::{Acted, Op, World};

/// The one slot of the table, in which the world lies.
const SLOT: usize = 0;

/// What the word of the turn says.
const FREE: u64 = 0;

const HELD: u64 = 1;

impl<B: Bucket> Shared<B> {
    /// Takes the turn, and the world with it.
    pub(crate) fn take_turn<R: Wait>(&self, rt: &R, place: &mut Place<B>) -> World<B>
        requires own { place.old.table_id ≡ self.now.table.shared.table_id }
        requires rests { (place.old.me.1 ≡ []) × (place.old.me.0.live ≡ true) }
        ensures same { (place.new.table_id ≡ place.old.table_id) × (place.new.id ≡ place.old.id) }
        ensures finds { Finds place.old.me.0 result.journal }
        ensures comes { ComesFrom B.told (opened_of place.old.me.0) result }
        ensures holds { (wanted : Bool)
            × (place.new.me ≡ (holding place.old.me.0 result.journal wanted, (0, None) ∷ []))
            × (wanted ≡ false → AsksFrom B.told (opened_of place.old.me.0) result) }
    {
        let backoff = Backoff::new();
        for _ in rt.forever() {
            if self
                .table
                .shared
                .compare_exchange::<Take>(place, TURN, FREE, HELD)
                == FREE
            {
                return self.lift(place);
            }
            backoff.snooze();
        }
        unreachable!()
    }

    /// Takes the world out of the slot.
    fn lift(&self, place: &mut Place<B>) -> World<B>
        requires own { place.old.table_id ≡ self.now.table.shared.table_id }
        requires there { (w : World B) × (place.old.me.1 ≡ (0, Some w) ∷ []) }
        ensures same { (place.new.table_id ≡ place.old.table_id) × (place.new.id ≡ place.old.id) }
        ensures world { place.old.me.1 ≡ (0, Some result) ∷ [] }
        ensures left { place.new.me ≡ (place.old.me.0, (0, None) ∷ []) }
    {
        match self.table.shared.exchange(place, SLOT, None) {
            Some(world) => world,
            None => unreachable!(),
        }
    }

    /// Puts the world back into the slot, which is empty.
    pub(crate) fn lay(&self, place: &mut Place<B>, world: World<B>)
        requires own { place.old.table_id ≡ self.now.table.shared.table_id }
        requires empty { place.old.me.1 ≡ (0, None) ∷ [] }
        ensures same { (place.new.table_id ≡ place.old.table_id) × (place.new.id ≡ place.old.id) }
        ensures world { place.new.me ≡ (place.old.me.0, (0, Some world) ∷ []) }
    {
        match self.table.shared.exchange(place, SLOT, Some(world)) {
            None => {}
            Some(_) => unreachable!(),
        }
    }

    /// Ends a turn in which the operation was answered so.
    pub(crate) fn settle(&self, place: &mut Place<B>, acted: &Acted, asked: &Snapshot<Op>)
        requires own { place.old.table_id ≡ self.now.table.shared.table_id }
        requires holds { (place.old.me.0.live ≡ true) × (place.old.me.0.holds ≡ true) }
        requires worked { (w : World B) × (place.old.me.1 ≡ (0, Some w) ∷ [])
            × (w.journal
            ≡ place.old.me.0.held ++ gained place.old.me.0.seat asked.now.value acted.now)
            × ComesFrom B.told (opened_of place.old.me.0) w × (length w.journal ≤ most_entries)
            × (acted.now ≢ Acted.NoMemory → place.old.me.0.held_wanted ≡ false
            → AsksFrom B.told (opened_of place.old.me.0) w) }
        ensures same { (place.new.table_id ≡ place.old.table_id) × (place.new.id ≡ place.old.id) }
        ensures settled { place.new.me ≡ (settled place.old.me.0 asked.now.value acted.now, []) }
    {
        match acted {
            Acted::Done(_) => {
                self.append(place);
                self.give(place);
            }
            Acted::Full => self.give_full(place),
            Acted::NoMemory => self.give_short(place),
        }
    }

    /// Counts the entry that the world in the slot has more than the pass found.
    fn append(&self, place: &mut Place<B>)
        requires own { place.old.table_id ≡ self.now.table.shared.table_id }
        requires holds { (place.old.me.0.live ≡ true) × (place.old.me.0.holds ≡ true) }
        requires lies { (w : World B) × (e : Entry) × (place.old.me.1 ≡ (0, Some w) ∷ [])
            × (w.journal ≡ place.old.me.0.held ++ e ∷ []) × (e.seat ≡ place.old.me.0.seat)
            × (length w.journal ≤ most_entries) }
        ensures same { (place.new.table_id ≡ place.old.table_id) × (place.new.id ≡ place.old.id) }
        ensures added { (w : World B) (e : Entry) → place.old.me.1 ≡ (0, Some w) ∷ []
            → w.journal ≡ place.old.me.0.held ++ e ∷ []
            → place.new.me ≡ (adding place.old.me.0 e, place.old.me.1) }
    {
        self.table.shared.fetch_add::<Append>(place, COUNT, 1);
    }

    /// Gives the turn back, and the world with it.
    fn give(&self, place: &mut Place<B>)
        requires own { place.old.table_id ≡ self.now.table.shared.table_id }
        requires holds { (place.old.me.0.live ≡ true) × (place.old.me.0.holds ≡ true) }
        requires lies { (w : World B) × (place.old.me.1 ≡ (0, Some w) ∷ [])
            × (w.journal ≡ place.old.me.0.held) × ComesFrom B.told (opened_of place.old.me.0) w
            × (place.old.me.0.held_wanted ≡ false → AsksFrom B.told (opened_of place.old.me.0) w) }
        ensures same { (place.new.table_id ≡ place.old.table_id) × (place.new.id ≡ place.old.id) }
        ensures gives { place.new.me ≡ (leaving place.old.me.0, []) }
    {
        self.table.shared.store::<Give>(place, TURN, FREE);
    }

    /// Gives the turn back, and the world with it, where the pass has seen the whole journal.
    fn give_full(&self, place: &mut Place<B>)
        requires own { place.old.table_id ≡ self.now.table.shared.table_id }
        requires holds { (place.old.me.0.live ≡ true) × (place.old.me.0.holds ≡ true) }
        requires lies { (w : World B) × (place.old.me.1 ≡ (0, Some w) ∷ [])
            × (w.journal ≡ place.old.me.0.held) × ComesFrom B.told (opened_of place.old.me.0) w
            × (place.old.me.0.held_wanted ≡ false → AsksFrom B.told (opened_of place.old.me.0) w) }
        ensures same { (place.new.table_id ≡ place.old.table_id) × (place.new.id ≡ place.old.id) }
        ensures gives { place.new.me ≡ (leaving_full place.old.me.0, []) }
    {
        self.table.shared.store::<GiveFull>(place, TURN, FREE);
    }

    /// Gives the turn back, and the world with it, where memory was wanted.
    fn give_short(&self, place: &mut Place<B>)
        requires own { place.old.table_id ≡ self.now.table.shared.table_id }
        requires holds { (place.old.me.0.live ≡ true) × (place.old.me.0.holds ≡ true) }
        requires lies { (w : World B) × (place.old.me.1 ≡ (0, Some w) ∷ [])
            × (w.journal ≡ place.old.me.0.held) × ComesFrom B.told (opened_of place.old.me.0) w }
        ensures same { (place.new.table_id ≡ place.old.table_id) × (place.new.id ≡ place.old.id) }
        ensures gives { place.new.me ≡ (leaving_short place.old.me.0, []) }
    {
        self.table.shared.store::<GiveShort>(place, TURN, FREE);
    }
}

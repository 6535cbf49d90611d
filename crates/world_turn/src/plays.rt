//! The rule of the table, and what each step tells.
use crate::view::View;
use atomic_table::{Join, Play, Split, TableRule};
use bucket_core::Bucket;
use std::marker::PhantomData;
use std::snapshot::Snapshot;
use world_core::World;

/// The rule, which is told the world as it was opened.
pub struct Turns<B> {
    bucket: PhantomData<B>,
}

impl<B: Bucket> TableRule<Option<World<B>>, View, Snapshot<World<B>>> for Turns<B> {
    ghost use Rattle.world_turn.specs.Rule.{Rule, root};
    ghost use Rattle.world_turn.specs.Opening.{opening_of};

    ghost holds = { λ opened. Rule (λ w. w.journal) (λ w. w.tick) (λ w. B.told w.bucket)
        (opening_of B.told opened.value) };

    ghost first = { λ opened. root (opening_of B.told opened.value) };
}

/// The turn is taken where it was free.
pub(crate) struct Take;

impl<B: Bucket> Play<Option<World<B>>, View> for Take {
    ghost use Rattle.world_turn.specs.Steps.{Takes};

    ghost then = { Takes (λ w. w.journal) (λ w. w.tick) (λ w. B.told w.bucket) };
}

/// An entry is counted.
pub(crate) struct Append;

impl<B: Bucket> Play<Option<World<B>>, View> for Append {
    ghost use Rattle.world_turn.specs.Steps.{Appends};

    ghost then = { Appends (λ w. w.journal) (λ w. w.tick) (λ w. B.told w.bucket) };
}

/// The turn is given back.
pub(crate) struct Give;

impl<B: Bucket> Play<Option<World<B>>, View> for Give {
    ghost use Rattle.world_turn.specs.Steps.{Gives};

    ghost then = { Gives (λ w. w.journal) (λ w. w.tick) (λ w. B.told w.bucket) };
}

/// The turn is given back by a pass that has seen the whole journal.
pub(crate) struct GiveFull;

impl<B: Bucket> Play<Option<World<B>>, View> for GiveFull {
    ghost use Rattle.world_turn.specs.Steps.{GivesFull};

    ghost then = { GivesFull (λ w. w.journal) (λ w. w.tick) (λ w. B.told w.bucket) };
}

/// The turn is given back by a pass for whose operation memory was wanted.
pub(crate) struct GiveShort;

impl<B: Bucket> Play<Option<World<B>>, View> for GiveShort {
    ghost use Rattle.world_turn.specs.Steps.{GivesShort};

    ghost then = { GivesShort (λ w. w.journal) (λ w. w.tick) (λ w. B.told w.bucket) };
}

/// The entries are counted.
pub(crate) struct Look;

impl<B: Bucket> Play<Option<World<B>>, View> for Look {
    ghost use Rattle.world_turn.specs.Steps.{Counts};

    ghost then = { Counts (λ w. w.journal) (λ w. w.tick) (λ w. B.told w.bucket) };
}

/// The root compares a front that it took in with its own.
pub(crate) struct Compare;

impl<B: Bucket> Play<Option<World<B>>, View> for Compare {
    ghost use Rattle.world_turn.specs.Steps.{Compares};

    ghost then = { Compares (λ w. w.journal) (λ w. w.tick) (λ w. B.told w.bucket) };
}

/// The root makes a seat, or takes one in.
pub(crate) struct Seating;

impl Split<View> for Seating {
    ghost use Rattle.world_turn.specs.Steps.{one_more, next_seat};

    ghost left = { one_more };

    ghost right = { next_seat };
}

impl Join<View> for Seating {
    ghost use Rattle.world_turn.specs.Rule.{spent};
    ghost use Rattle.world_turn.specs.Steps.{joining};

    ghost both = { joining };

    ghost spent = { spent };
}

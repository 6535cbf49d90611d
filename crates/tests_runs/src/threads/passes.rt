//! Two passes over one shared world, each used in a thread of its own, and what the root knows of the journal before
//! and after it takes them in.

ghost use Rattle.std.specs.Prelude.{◌≡◌, []};
ghost use Rattle.world_turn.specs.Closing.{AllJoined};
ghost use Rattle.world_turn.specs.Passes.{table_of, view_of};

use crate::threads::job::read_at;
use crate::threads::worlds::{are_in_order, shared_world};
use bucket_core::MemoryBucket;
use std::alloc::Global;
use std::sync::Wait;
use std::thread::{Threads, join};
use world_turn::{Pass, Shared};

/// Two passes make a hundred calls each in threads of their own. The root counts them before it takes the passes in.
pub fn passes_share_a_journal<R: Threads + Wait + Sync>(rt: &R, alloc: Global) -> bool {
    let Some((shared, root)) = shared_world(alloc, None) else {
        return false;
    };
    let (split, one, two) = split_twice(&shared, root);
    let lent = &shared;
    let (first, second) = join(
        rt,
        || -> Pass
            requires { table_of one ≡ lent.now.table.shared.table_id }
            ensures { (table_of result ≡ table_of one) × (result.seat ≡ one.seat) }
        { hundred(rt, lent, one) },
        || -> Pass
            requires { table_of two ≡ lent.now.table.shared.table_id }
            ensures { (table_of result ≡ table_of two) × (result.seat ≡ two.seat) }
        { hundred(rt, lent, two) },
    );
    let (count, looked) = shared.look(split);
    let joined = joined_both(&shared, looked, first, second);
    let world = shared.close(joined).into_world();
    let good = count == 200 && are_in_order(world.journal().entries(), 100);
    drop(world);
    good
}

/// The root, and the passes of the seats 1 and 2.
fn split_twice(shared: &Shared<MemoryBucket>, root: Pass) -> (Pass, Pass, Pass)
    requires own { (table_of root ≡ shared.now.table.shared.table_id) × (root.seat ≡ 0) }
    requires fresh { (root.splits ≡ 0) × ((view_of root).seats ≡ 1)
        × ((view_of root).joined ≡ []) }
    ensures root { (table_of result.0 ≡ table_of root) × (result.0.seat ≡ 0)
        × ((view_of result.0).seats ≡ 3) × ((view_of result.0).joined ≡ []) }
    ensures one { (table_of result.1 ≡ table_of root) × (result.1.seat ≡ 1) }
    ensures two { (table_of result.2 ≡ table_of root) × (result.2.seat ≡ 2) }
{
    let (once, one) = shared.split_pass(root);
    let (twice, two) = shared.split_pass(once);
    (twice, one, two)
}

/// The root, after both passes were joined.
fn joined_both(shared: &Shared<MemoryBucket>, root: Pass, one: Pass, two: Pass) -> Pass
    requires own { (table_of root ≡ shared.now.table.shared.table_id) × (root.seat ≡ 0) }
    requires seats { ((view_of root).seats ≡ 3) × ((view_of root).joined ≡ []) }
    requires one { (table_of one ≡ shared.now.table.shared.table_id) × (one.seat ≡ 1) }
    requires two { (table_of two ≡ shared.now.table.shared.table_id) × (two.seat ≡ 2) }
    ensures root { (table_of result ≡ table_of root) × (result.seat ≡ 0) }
    ensures all { AllJoined (view_of result) }
{
    let once = shared.join_pass(root, one);
    let twice = shared.join_pass(once, two);
    twice
}

/// A hundred calls, one after another.
fn hundred<R: Wait>(rt: &R, shared: &Shared<MemoryBucket>, pass: Pass) -> Pass
    requires { table_of pass ≡ shared.now.table.shared.table_id }
    ensures { (table_of result ≡ table_of pass) × (result.seat ≡ pass.seat) }
{
    let mut last = pass;
    for place in 0..100u64 {
        let (acted, next) = shared.act(rt, last, read_at(place));
        drop(acted);
        last = next;
    }
    last
}

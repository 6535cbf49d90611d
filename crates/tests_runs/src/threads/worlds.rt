ghost use Rattle.std.specs.Prelude.{◌≡◌, [], IfSome};
ghost use Rattle.world_turn.specs.Closing.{AllJoined};
ghost use Rattle.world_turn.specs.Passes.{table_of, view_of};

use crate::setting::fails_of;
use bucket_core::{Fail, MemoryBucket};
use moment_core::Span;
use std::alloc::Global;
use world_core::{Entry, Op, World};
use world_turn::{Pass, Shared};

/// A shared world over an empty bucket, of which one call fails. The first call opens the world.
#[tactic(auto, using(crate::proofs::Joined::none_split))]
pub fn shared_world(alloc: Global, failing: Option<Fail>) -> Option<(Shared<MemoryBucket>, Pass)>
    ensures { IfSome result (λ r. (table_of r.1 ≡ r.0.table.shared.table_id) × (r.1.seat ≡ 0)
        × (r.1.splits ≡ 0) × ((view_of r.1).seats ≡ 1) × ((view_of r.1).joined ≡ [])
        × AllJoined (view_of r.1)) }
{
    let bucket = MemoryBucket::new(alloc, fails_of(alloc, failing));
    let Ok(world) = World::open(alloc, bucket, Span { ms: 1 }) else {
        return None;
    };
    Shared::open(alloc, world).ok()
}

/// Whether each of two seats made so many reads of ranges, in their order, and no other entry stands there.
pub fn are_in_order(entries: &[Entry], each: u64) -> bool {
    let mut first = 0u64;
    let mut second = 0u64;
    for entry in entries {
        let Op::GetRange(_, from, _) = &entry.op else {
            return false;
        };
        let made = match entry.seat {
            1 => &mut first,
            2 => &mut second,
            _ => return false,
        };
        if *from != *made {
            return false;
        }
        *made = made.saturating_add(1);
    }
    first == each && second == each
}

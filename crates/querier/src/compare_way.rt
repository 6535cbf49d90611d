//! Ways to compare gateways' answers with the first one: by one thread, all or none, or as a caller does it.

ghost use Rattle.std.specs.Prelude.{◌≡◌, ◌<◌, [], ℕ, length, slice_index_or};
ghost use Rattle.querier.specs.Gathered.{IsComparedWith};

use crate::Answer;
use crate::alike::all_have;
use std::alloc::Global;

/// A way to compare answers with the first one. Those of gateways that see the same blocks have the same series.
pub trait CompareWay {
    /// What has to hold for answers to be compared so, for example that what threads are lent may be shared.
    ghost can_compare: { Self → Type 0 };

    /// Empties others that have the first one's series: all of these, or some, or none. Their sources go too, so a caller takes these before.
    fn compare_all(&self, alloc: Global, first: &Answer, others: &mut [Answer])
        requires { can_compare self.now }
        ensures { (i : ℕ) (d : _) → i < length others.old
            → IsComparedWith first.now (slice_index_or others.old i d)
            (slice_index_or others.new i d) };
}

/// By the caller's own thread: if all others have the first one's series, all are emptied.
#[derive(Drop)]
pub struct InTurn;

impl CompareWay for InTurn {
    ghost can_compare = { λ _. Unit {0} };

    fn compare_all(&self, alloc: Global, first: &Answer, others: &mut [Answer]) {
        compare_in_turn(alloc, first, others);
    }
}

fn compare_in_turn(alloc: Global, first: &Answer, others: &mut [Answer])
    ensures { (i : ℕ) (d : _) → i < length others.old
        → IsComparedWith first.now (slice_index_or others.old i d)
        (slice_index_or others.new i d) }
{
    if all_have(first.series.members(), others) {
        empty_all(alloc, others);
    }
}

/// Lets go what each answer has. It takes no memory.
fn empty_all(alloc: Global, answers: &mut [Answer])
    ensures { (i : ℕ) (d : _) → i < length answers.old
        → (slice_index_or answers.new i d).series ≡ [] }
{
    for place in 0..answers.len() {
        answers[place] = Answer::empty(alloc);
    }
}

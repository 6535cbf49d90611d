//! The series that come next in the order of their labels, of all blocks.
ghost use Rattle.std.specs.Prelude.{◌≡◌, map, option_map, IfOk, OnOk};
ghost use Rattle.std.specs.List.{AllByRecursion};
ghost use Rattle.base.specs.Ordered.{Rises};
ghost use Rattle.base.specs.Lists.{joined};
ghost use Rattle.index_v2.specs.LentLabels.{as_label};
ghost use Rattle.block_merging.specs.Placed.{chunk_of};
ghost use Rattle.block_merging.specs.Queues.{IsQueue, have_lesser_labels, lesser, lefts_in, LeastIs, TakesGroup};

use crate::input_chunk::InputChunk;
use crate::series_queue::{SeriesQueue, next_labels, take_front};
use base::NoMemory;
use index_v2::{LentLabel, compare_lent};
use label_sets::{LabelSet, TextList};
use std::alloc::Global;

/// The lesser labels, or those that are there.
fn lesser<'q, 'a>(
    one: Option<&'q [LentLabel<'a>]>,
    other: Option<&'q [LentLabel<'a>]>,
) -> Option<&'q [LentLabel<'a>]>
    ensures { option_map (λ l. map as_label l.now) result
        ≡ lesser (option_map (λ l. map as_label l.now) one.entry)
        (option_map (λ l. map as_label l.now) other.entry) }
{
    match (one, other) {
        (Some(first), Some(second)) if compare_lent(second, first).is_lt() => other,
        (Some(_), _) => one,
        (None, _) => other,
    }
}

/// The least labels of the series that are left, if any is.
fn least_labels<'q, 'a>(
    external: &LabelSet,
    replicas: &TextList,
    queues: &'q [SeriesQueue<'a>],
) -> Option<&'q [LentLabel<'a>]>
    requires queues { AllByRecursion (IsQueue external.now replicas.now) queues.now }
    requires rise { AllByRecursion (Rises have_lesser_labels)
        (lefts_in external.now replicas.now queues.now) }
    ensures { LeastIs (option_map (λ l. map as_label l.now) result)
        (joined (lefts_in external.now replicas.now queues.now)) }
{
    let mut least = None;
    for queue in queues {
        least = lesser(least, next_labels(queue));
    }
    least
}

/// The labels, in the memory of others.
fn labels_in_room<'a>(
    labels: &[LentLabel<'a>],
    room: Vec<LentLabel<'a>>,
) -> Result<Vec<LentLabel<'a>>, NoMemory>
    ensures { IfOk result (λ made. made.items ≡ labels.now) }
{
    let mut made = room;
    made.clear();
    made.extend_from_slice(labels)?;
    Ok(made)
}

/// A copy of the least labels of the series that are left, if any is, in the memory of others. Their texts are still lent.
pub(crate) fn next_group<'a>(
    external: &LabelSet,
    replicas: &TextList,
    queues: &[SeriesQueue<'a>],
    room: Vec<LentLabel<'a>>,
) -> Result<Option<Vec<LentLabel<'a>>>, NoMemory>
    requires queues { AllByRecursion (IsQueue external.now replicas.now) queues.now }
    requires rise { AllByRecursion (Rises have_lesser_labels)
        (lefts_in external.now replicas.now queues.now) }
    ensures { IfOk result (λ least. LeastIs (option_map (λ l. map as_label l.items) least)
        (joined (lefts_in external.now replicas.now queues.now))) }
{
    match least_labels(external, replicas, queues) {
        Some(labels) => Ok(Some(labels_in_room(labels, room)?)),
        None => Ok(None),
    }
}

/// Takes the series that have these labels from the fronts of all queues, and gives their chunks, one series after another,
/// in the memory of others.
pub(crate) fn take_group<'a>(
    alloc: Global,
    external: &LabelSet,
    replicas: &TextList,
    queues: &mut Vec<SeriesQueue<'a>>,
    labels: &[LentLabel<'_>],
    room: Vec<InputChunk<'a>>,
) -> Result<Vec<InputChunk<'a>>, NoMemory>
    requires { AllByRecursion (IsQueue external.now replicas.now) queues.old.items }
    ensures queues { OnOk result
        (AllByRecursion (IsQueue external.now replicas.now) queues.new.items) }
    ensures taken { IfOk result (λ chunks. TakesGroup (map as_label labels.now)
        (lefts_in external.now replicas.now queues.old.items)
        (lefts_in external.now replicas.now queues.new.items) (map chunk_of chunks.items)) }
{
    let mut chunks = room;
    chunks.clear();
    for place in 0..queues.len() {
        let queue = &mut queues[place];
        chunks = take_front(alloc, external, replicas, queue, labels, chunks)?;
    }
    Ok(chunks)
}

//! The series of one block that are still to be merged.
ghost use Rattle.std.specs.Prelude.{◌≡◌, ◌<◌, ℕ, List, length, map, option_map, IfOk, OnOk};
ghost use Rattle.std.specs.List.{AllByRecursion};
ghost use Rattle.base.specs.Ordered.{Rises};
ghost use Rattle.label_sets.specs.declared.label.Label.{Label};
ghost use Rattle.index_parts.specs.IndexFile.{IsSeriesOf};
ghost use Rattle.index_v2.specs.LentLabels.{as_label};
ghost use Rattle.index_parts.specs.declared.index_series.IndexSeries.{IndexSeries};
ghost use Rattle.block_merging.specs.Placed.{chunk_of};
ghost use Rattle.block_merging.specs.Queues.{IsRead, IsNext, IsQueue, HasAdvanced, IsFrontOf, have_lesser_labels, left_in, LeastIs, head_is};

use crate::input_chunk::InputChunk;
use crate::lent_chunks::add_chunks;
use crate::lent_labels::{are_same, kept_lent};
use crate::listing::SeriesPlace;
use base::NoMemory;
use block_meta::BlockFiles;
use index_parts::ChunkPlace;
use index_v2::{IndexReader, IndexRefusal, LentLabel, LentSeries};
use label_sets::{LabelSet, TextList};
use std::alloc::Global;
use std::mem::replace;

/// The series of a block in the order of their reduced labels. The next one is read; those that were taken are let go.
#[derive(Drop)]
pub(crate) struct SeriesQueue<'a> {
    pub(crate) block: &'a BlockFiles,
    pub(crate) reader: IndexReader<'a>,
    pub(crate) places: Vec<SeriesPlace<'a>>,
    /// How many were taken.
    pub(crate) taken: usize,
    /// Where the chunks of the next one stand, and its reduced labels.
    pub(crate) chunks: Vec<ChunkPlace>,
    pub(crate) labels: Vec<LentLabel<'a>>,
}

/// What is wanting where an index was read before.
pub(crate) fn only_memory(refusal: IndexRefusal) -> NoMemory
    requires { refusal ≡ IndexRefusal.NoMemory }
{
    match refusal {
        IndexRefusal::NoMemory => NoMemory,
        _ => unreachable!(),
    }
}

/// The series of a number, in the room of another. It was read before, so only memory can be wanting.
fn series_at<'a>(
    reader: &IndexReader<'a>,
    number: u32,
    room: LentSeries<'a>,
) -> Result<LentSeries<'a>, NoMemory>
    requires { (series : IndexSeries)
        × IsSeriesOf reader.now.bytes reader.now.symbols number series }
    ensures { (series : IndexSeries)
        → IsSeriesOf reader.now.bytes reader.now.symbols number series
        → IfOk result (λ read. read ≡ series) }
{
    match reader.lent_series(number, room) {
        Ok(series) => Ok(series),
        Err(refusal) => Err(only_memory(refusal)),
    }
}

/// Where the chunks of the series behind those that were taken stand, and its reduced labels, if one is left. The memory of both
/// is that of lists which are no longer needed.
pub(crate) fn next_of<'a>(
    external: &LabelSet,
    replicas: &TextList,
    reader: &IndexReader<'a>,
    places: &[SeriesPlace<'_>],
    taken: usize,
    old_chunks: Vec<ChunkPlace>,
    old_labels: Vec<LentLabel<'a>>,
) -> Result<(Vec<ChunkPlace>, Vec<LentLabel<'a>>), NoMemory>
    requires { AllByRecursion (IsRead reader.now) places.now }
    ensures { IfOk result (λ next. IsNext external.now replicas.now places.now taken
        (map as_label next.1.items) next.0.items) }
{
    if taken >= places.len() {
        return Ok((old_chunks, old_labels));
    }
    let room = LentSeries::in_lists(old_labels, old_chunks);
    let series = series_at(reader, places[taken].number, room)?;
    let (labels, chunks) = series.into_lists();
    Ok((chunks, kept_lent(labels, external, replicas)))
}

/// Lets the next series go, and reads the one behind it.
fn advance<'a>(
    alloc: Global,
    external: &LabelSet,
    replicas: &TextList,
    queue: &mut SeriesQueue<'a>,
) -> Result<(), NoMemory>
    requires is { IsQueue external.now replicas.now queue.old }
    requires some { queue.old.taken < length queue.old.places.items }
    ensures { OnOk result (HasAdvanced external.now replicas.now queue.old queue.new) }
{
    queue.taken += 1;
    let old_chunks = replace(&mut queue.chunks, Vec::new(alloc));
    let old_labels = replace(&mut queue.labels, Vec::new(alloc));
    let (chunks, labels) = next_of(
        external,
        replicas,
        &queue.reader,
        queue.places.as_slice(),
        queue.taken,
        old_chunks,
        old_labels,
    )?;
    queue.chunks = chunks;
    queue.labels = labels;
    Ok(())
}

/// The labels of the next series, if there is one.
pub(crate) fn next_labels<'q, 'a>(queue: &'q SeriesQueue<'a>) -> Option<&'q [LentLabel<'a>]>
    ensures { (external : List Label) (replicas : List (List ℕ))
        → IsQueue external replicas queue.now
        → Rises have_lesser_labels (left_in external replicas queue.now)
        → LeastIs (option_map (λ l. map as_label l.now) result)
        (left_in external replicas queue.now) }
{
    if queue.taken < queue.places.len() {
        Some(queue.labels.as_slice())
    } else {
        None
    }
}

/// Whether a series is left, and the next one has these labels.
fn has_next(queue: &SeriesQueue<'_>, labels: &[LentLabel<'_>]) -> bool
    ensures { head_is queue.now (map as_label labels.now) result }
{
    queue.taken < queue.places.len() && are_same(queue.labels.as_slice(), labels)
}

/// Takes the series that have these labels from the front, and adds their chunks behind others.
pub(crate) fn take_front<'a>(
    alloc: Global,
    external: &LabelSet,
    replicas: &TextList,
    queue: &mut SeriesQueue<'a>,
    labels: &[LentLabel<'_>],
    chunks: Vec<InputChunk<'a>>,
) -> Result<Vec<InputChunk<'a>>, NoMemory>
    requires { IsQueue external.now replicas.now queue.old }
    ensures is { OnOk result (IsQueue external.now replicas.now queue.new) }
    ensures taken { IfOk result (λ all. IsFrontOf (map as_label labels.now)
        (left_in external.now replicas.now queue.old) (left_in external.now replicas.now queue.new)
        (map chunk_of chunks.entry.items) (map chunk_of all.items)) }
{
    let mut all = chunks;
    while has_next(queue, labels) {
        let block = queue.block;
        all = add_chunks(all, block.segments.members(), queue.chunks.as_slice())?;
        advance(alloc, external, replicas, queue)?;
    }
    Ok(all)
}

//! The reads of chunks, and the end of a call.
ghost use Rattle.std.specs.Prelude.{◌+◌, ◌*◌, length, map, IfOk};
ghost use Rattle.store_ranges.specs.Reads.{Cache};
ghost use Rattle.store_ranges.specs.IndexReads.{reached};
ghost use Rattle.store_chunks.specs.ChunksRead.{reads_of};
ghost use Rattle.store_chunks.specs.Glimpsed.{pending_chunk};
ghost use Rattle.store_calls.specs.BlockRuns.{Leading};
ghost use Rattle.store_calls.specs.WorkStates.{most, Leads, Where, AreInOrder, IsGroupWork, IsSingleWork, ArePending, references_left, chunks_left, shows_groups, shows_out, with_group, with_single};
ghost use Rattle.store_calls.specs.ChunkFindings.{ShowsFirst};

use crate::BlockOutcome;
use crate::work::{ChunkWork, Step, Work};
use base::NoMemory;
use block_keys::Key;
use index_parts::{ChunkPlace, OFFSET_COUNT};
use index_v2::IndexSeries;
use std::collections::VecDeque;
use store_chunks::{
    ChunkRow, Glimpse, GroupShown, Pending, all_shown, glimpses, have_keys, places_of, read_behind,
    row_of_one, sorted_places, taken_places,
};
use store_ranges::{Asked, GroupRead, groups_to_read, references_of};
use wire_bytes::Blob;
use world_core::Op;

/// The chunks of a group that were shown, and what follows them.
#[derive(Drop)]
pub(crate) enum Shown {
    /// A chunk that sticks out, by its reference and how many bytes it takes, and those behind it.
    SticksOut {
        found: Vec<ChunkRow>,
        reference: u64,
        len: u64,
        pending: VecDeque<Pending>,
    },
    /// Nothing.
    All(Vec<ChunkRow>),
}

/// Reads the chunks of these series that meet the range. The number is that of the entry that told
/// of them.
pub(crate) fn begin_chunks(
    asked: &Asked<'_>,
    last: u64,
    series: Vec<IndexSeries>,
) -> Result<Step, NoMemory>
    ensures { (cache : Cache) → Leads asked.now cache (3 * most * most)
        (Leading (chunks_left asked.now (reached last cache) series.items)) result }
{
    let places = taken_places(asked, &series)?;
    if !have_keys(&places) {
        return Ok(Step::Done(BlockOutcome::Damaged(last)));
    }
    let references = references_of(asked.alloc, &places)?;
    let groups = groups_to_read(asked.alloc, references.members())?;
    let sorted = sorted_places(places)?;
    go_on_groups(
        asked,
        series,
        sorted,
        VecDeque::from(groups),
        Vec::new(asked.alloc),
    )
}

/// Asks for the next group, or ends where there is none.
fn go_on_groups(
    asked: &Asked<'_>,
    series: Vec<IndexSeries>,
    places: Vec<ChunkPlace>,
    groups: VecDeque<GroupRead>,
    found: Vec<ChunkRow>,
) -> Result<Step, NoMemory>
    ensures { (cache : Cache) → Leads asked.now cache (most * length groups.items + 1)
        (Where (AreInOrder places.items found.items (references_left groups.items))
        (Leading (shows_groups asked.now cache series.items places.items groups.items
        (reads_of found.items)))) result }
{
    let mut later = groups;
    match later.pop_front() {
        Some(group) => Ok(Step::Wait(
            Op::GetRange(
                Key::Segment(asked.ulid, group.segment),
                group.range.from,
                group.range.len,
            ),
            Work::Group(ChunkWork {
                series,
                places,
                group,
                later,
                found,
            }),
        )),
        None => Ok(Step::Done(BlockOutcome::Taken(all_shown(asked, &series, found)?))),
    }
}

/// Goes on behind the bytes of a group, which are let go before the samples are put together.
pub(crate) fn take_group(
    asked: &Asked<'_>,
    seq: u64,
    work: ChunkWork,
    bytes: Blob,
) -> Result<Step, NoMemory>
    ensures { (cache : Cache) → Leads asked.now cache (most * length work.later.items + most)
        (Where (IsGroupWork work)
        (Leading (with_group asked.now cache work seq bytes))) result }
{
    let ChunkWork {
        series,
        places,
        group,
        later,
        found,
    } = work;
    let shown = glimpses(asked, &series, &places, &group, bytes.bytes(), found)?;
    drop(bytes);
    match shown {
        Some(made) => {
            let GroupShown { rows, pending } = made;
            go_on_chunks(
                asked,
                ChunkWork {
                    series,
                    places,
                    group,
                    later,
                    found: rows,
                },
                pending,
            )
        }
        None => Ok(Step::Done(BlockOutcome::Damaged(seq))),
    }
}

/// Takes the chunks of a group that were shown, up to one that sticks out, for which it asks.
fn go_on_chunks(
    asked: &Asked<'_>,
    work: ChunkWork,
    chunks: VecDeque<Pending>,
) -> Result<Step, NoMemory>
    ensures { (cache : Cache)
        → Leads asked.now cache (most * length work.later.items + length chunks.items + 1)
        (Where (ArePending work chunks.items)
        (Leading (shows_out asked.now cache work
        (map pending_chunk chunks.items) (reads_of work.found.items)))) result }
{
    let ChunkWork {
        series,
        places,
        group,
        later,
        found,
    } = work;
    match shown_chunks(found, chunks)? {
        Shown::SticksOut {
            found,
            reference,
            len,
            pending,
        } => Ok(Step::Wait(
            Op::GetRange(
                Key::Segment(asked.ulid, group.segment),
                reference % OFFSET_COUNT,
                len,
            ),
            Work::Single(
                ChunkWork {
                    series,
                    places,
                    group,
                    later,
                    found,
                },
                reference,
                len,
                pending,
            ),
        )),
        Shown::All(found) => go_on_groups(asked, series, places, later, found),
    }
}

/// The chunks that were shown, up to one that sticks out, behind others.
fn shown_chunks(found: Vec<ChunkRow>, chunks: VecDeque<Pending>) -> Result<Shown, NoMemory>
    ensures { IfOk result (ShowsFirst found.items chunks.items) }
{
    let mut all = found;
    let mut pending = chunks;
    while let Some(one) = pending.pop_front() {
        let Pending { reference, glimpse } = one;
        match glimpse {
            Glimpse::Shows(samples) => all.push(row_of_one(reference, samples)?)?,
            Glimpse::SticksOut(len) => {
                return Ok(Shown::SticksOut {
                    found: all,
                    reference,
                    len,
                    pending,
                });
            }
        }
    }
    Ok(Shown::All(all))
}

/// Goes on behind the bytes of a chunk that stuck out.
pub(crate) fn take_single(
    asked: &Asked<'_>,
    seq: u64,
    work: ChunkWork,
    reference: u64,
    pending: VecDeque<Pending>,
    bytes: &[u8],
) -> Result<Step, NoMemory>
    ensures { (cache : Cache)
        → Leads asked.now cache (most * length work.later.items + length pending.items + 1)
        (Where (IsSingleWork work reference pending.items)
        (Leading (with_single asked.now cache work reference pending.items seq bytes.now))) result }
{
    let ChunkWork {
        series,
        places,
        group,
        later,
        found,
    } = work;
    let own = places_of(&places, reference);
    match read_behind(asked, &series, own, found, reference, bytes)? {
        Some(found) => go_on_chunks(
            asked,
            ChunkWork {
                series,
                places,
                group,
                later,
                found,
            },
            pending,
        ),
        None => Ok(Step::Done(BlockOutcome::Damaged(seq))),
    }
}

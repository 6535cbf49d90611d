//! What the read of a group shows of its chunks.
ghost use Rattle.std.specs.Prelude.{◌≡◌, ◌+◌, ◌-◌, ◌<◌, ◌++◌, [], ◌∷◌, true, Ok, Some, None, IfOk};
ghost use Rattle.std.specs.List.Sorted.{IsNonDecreasingBy};
ghost use Rattle.index_parts.specs.SeriesEntry.{reference_of};
ghost use Rattle.base.specs.Firsts.{each_at};
ghost use Rattle.store_ranges.specs.Asking.{query_asked, block_asked};
ghost use Rattle.store_ranges.specs.ToRead.{group_read};
ghost use Rattle.store_chunks.specs.ChunkReads.{places_at, tests_at, glimpse, glimpse_at};
ghost use Rattle.store_chunks.specs.ChunksRead.{reads_of};
ghost use Rattle.store_chunks.specs.Glimpsed.{shown_so, ShowsOne, ShowsGroup};

use crate::chunk_cut::chunk_samples;
use crate::chunk_row::ChunkRow;
use crate::chunk_rows::read_behind;
use crate::chunks::chunk_len;
use base::{NoMemory, members_behind};
use index_parts::{ChunkPlace, IndexSeries, reference_of};
use label_sets::SampleList;
use std::collections::VecDeque;
use store_ranges::{Asked, GroupRead};

/// What the read of a group shows of a chunk.
#[derive(Drop)]
pub enum Glimpse {
    /// The whole of it, which has these samples in the range.
    Shows(SampleList),
    /// Only that it takes so many bytes, and so sticks out.
    SticksOut(u64),
}

/// A chunk of a group, by its reference.
#[derive(Drop)]
pub struct Pending {
    pub reference: u64,
    pub glimpse: Glimpse,
}

/// What was shown of a group: the chunks that were read, behind those that were read before, and
/// those from the first that sticks out on.
#[derive(Drop)]
pub struct GroupShown {
    pub rows: Vec<ChunkRow>,
    pub pending: VecDeque<Pending>,
}

/// The places of a reference, among places that ascend by their references.
pub fn places_of(places: &[ChunkPlace], reference: u64) -> &[ChunkPlace]
    ensures { IsNonDecreasingBy reference_of places.now
        → result.now ≡ places_at places.now reference }
{
    let start = places.partition_point(|place| reference_of(*place) < reference);
    let rest = &places[start..];
    let end = rest.partition_point(|place| reference_of(*place) <= reference);
    &rest[..end]
}

/// What was shown, with one chunk that waits behind it.
fn with_pending(shown: GroupShown, reference: u64, seen: Glimpse) -> Result<GroupShown, NoMemory>
    ensures { IfOk result (λ made. (made.rows ≡ shown.rows)
        × (made.pending.items ≡ shown.pending.items
        ++ record { reference = reference; glimpse = seen } ∷ [])) }
{
    let GroupShown { rows, mut pending } = shown;
    pending.push_back(Pending {
        reference,
        glimpse: seen,
    })?;
    Ok(GroupShown { rows, pending })
}

/// Shows the samples in the range of the chunk at the front of these bytes, behind other chunks.
/// None where it is not a chunk of each place of its reference.
fn add_chunk(
    asked: &Asked<'_>,
    series: &[IndexSeries],
    places: &[ChunkPlace],
    bytes: &[u8],
    reference: u64,
    shown: GroupShown,
) -> Result<Option<GroupShown>, NoMemory>
    ensures { IsNonDecreasingBy reference_of places.now
        → IfOk result (ShowsOne (shown_so shown) reference
        (glimpse true (tests_at (query_asked asked.now) (block_asked asked.now) places.now
        reference bytes.now) 0)) }
{
    let own = places_of(places, reference);
    if !shown.pending.is_empty() {
        return match chunk_samples(asked, own, bytes)? {
            Some(samples) => {
                let made = with_pending(shown, reference, Glimpse::Shows(samples))?;
                Ok(Some(made))
            }
            None => Ok(None),
        };
    }
    let GroupShown { rows, pending } = shown;
    match read_behind(asked, series, own, rows, reference, bytes)? {
        Some(rows) => Ok(Some(GroupShown { rows, pending })),
        None => Ok(None),
    }
}

/// Shows the chunk of a group at a reference behind others. None where the read shows no chunk.
fn add_glimpse(
    asked: &Asked<'_>,
    series: &[IndexSeries],
    places: &[ChunkPlace],
    group: &GroupRead,
    bytes: &[u8],
    reference: u64,
    shown: GroupShown,
) -> Result<Option<GroupShown>, NoMemory>
    ensures { IsNonDecreasingBy reference_of places.now
        → IfOk result (ShowsOne (shown_so shown) reference
        (glimpse_at (tests_at (query_asked asked.now) (block_asked asked.now) places.now)
        (group_read group.now) bytes.now reference)) }
{
    let whole = bytes.len();
    prove!(whole <= 0x7fff_ffff_ffff_ffff);
    let at = reference.saturating_sub(group.first);
    let len = match chunk_len(bytes, at) {
        Some(len) => len,
        None => return Ok(None),
    };
    if at + len > group.range.len {
        let made = with_pending(shown, reference, Glimpse::SticksOut(len))?;
        return Ok(Some(made));
    }
    let rest = members_behind(bytes, at as usize);
    add_chunk(asked, series, places, rest, reference, shown)
}

/// The chunks of a group in their order, as its read shows them, behind those that were read
/// before. None where it does not show a chunk at each reference.
pub fn glimpses(
    asked: &Asked<'_>,
    series: &[IndexSeries],
    places: &[ChunkPlace],
    group: &GroupRead,
    bytes: &[u8],
    found: Vec<ChunkRow>,
) -> Result<Option<GroupShown>, NoMemory>
    ensures { IsNonDecreasingBy reference_of places.now
        → IfOk result (ShowsGroup (reads_of found.items) group.now.references
        (each_at (glimpse_at (tests_at (query_asked asked.now) (block_asked asked.now) places.now)
        (group_read group.now) bytes.now) group.now.references)) }
{
    let references = group.references.members();
    glimpses_at(asked, series, places, group, references, bytes, found)
}

/// The chunks at these references.
fn glimpses_at(
    asked: &Asked<'_>,
    series: &[IndexSeries],
    places: &[ChunkPlace],
    group: &GroupRead,
    references: &[u64],
    bytes: &[u8],
    found: Vec<ChunkRow>,
) -> Result<Option<GroupShown>, NoMemory>
    ensures { IsNonDecreasingBy reference_of places.now
        → IfOk result (ShowsGroup (reads_of found.items) references.now
        (each_at (glimpse_at (tests_at (query_asked asked.now) (block_asked asked.now) places.now)
        (group_read group.now) bytes.now) references.now)) }
{
    let mut shown = GroupShown {
        rows: found,
        pending: VecDeque::new(asked.alloc),
    };
    for reference in references {
        let next = add_glimpse(asked, series, places, group, bytes, *reference, shown)?;
        match next {
            Some(more) => shown = more,
            None => return Ok(None),
        }
    }
    Ok(Some(shown))
}

//! The reads of groups of chunks.
ghost use Rattle.std.specs.Prelude.{◌≡◌, ◌+◌, ◌*◌, ◌<◌, ◌≤◌, map, All, length, IfOk};
ghost use Rattle.std.specs.List.Sorted.{IsStrictlyIncreasing};
ghost use Rattle.block_keys.specs.Keys.{segment_limit};
ghost use Rattle.index_parts.specs.SeriesEntry.{offset_count};
ghost use Rattle.store_ranges.specs.Stretches.{stretch_at, IsSpanOf};
ghost use Rattle.store_ranges.specs.ChunkRanges.{group_of};
ghost use Rattle.store_ranges.specs.ToRead.{group_read, AreGroupsToRead};

use crate::group_read::GroupRead;
use crate::{ByteRange, Span, groups_of_references};
use base::NoMemory;
use index_parts::OFFSET_COUNT;
use std::alloc::Global;
use wire_bytes::NumberList;

/// How many bytes most chunks take.
const USUAL_SIZE: u64 = 4_096;

/// The groups of references to chunks, which ascend, with what is read of each at first.
pub fn groups_to_read(alloc: Global, references: &[u64]) -> Result<Vec<GroupRead>, NoMemory>
    requires rise { IsStrictlyIncreasing references.now }
    requires keys { All (λ r. r < segment_limit * offset_count) references.now }
    ensures { IfOk result (λ groups. AreGroupsToRead references.now groups.items) }
{
    let spans = groups_of_references(alloc, references)?;
    all_groups(alloc, references, &spans)
}

fn all_groups(alloc: Global, references: &[u64], spans: &[Span]) -> Result<Vec<GroupRead>, NoMemory>
    requires keys { All (λ r. r < segment_limit * offset_count) references.now }
    requires within { All (IsSpanOf references.now) spans.now }
    ensures { IfOk result
        (λ groups. map group_read groups.items
        ≡ map group_of (map (stretch_at references.now) spans.now)) }
{
    let mut groups = Vec::new(alloc);
    for span in spans {
        groups.push(group_to_read(alloc, references, *span)?)?;
    }
    Ok(groups)
}

fn group_to_read(alloc: Global, references: &[u64], span: Span) -> Result<GroupRead, NoMemory>
    requires keys { All (λ r. r < segment_limit * offset_count) references.now }
    requires within { IsSpanOf references.now span }
    ensures { IfOk result (λ group. group_read group ≡ group_of (stretch_at references.now span)) }
{
    let first = references[span.start];
    let last = references[span.end - 1];
    Ok(GroupRead {
        segment: (first / OFFSET_COUNT) as u32 + 1,
        first,
        range: ByteRange {
            from: first % OFFSET_COUNT,
            len: last.saturating_sub(first) + USUAL_SIZE,
        },
        references: NumberList::from_vec(Vec::from_slice(
            alloc,
            &references[span.start..span.end],
        )?),
    })
}

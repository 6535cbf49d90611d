//! Blocks that a sync found, by their names.
ghost use Rattle.std.specs.Prelude.{◌≡◌, IfOk};
ghost use Rattle.compactor.specs.FoundNames.{names_of, expired_at};

use base::NoMemory;
use moment_core::{Moment, Span};
use std::alloc::Global;
use std::collections::VecDeque;
use sync_filters::{Found, is_expired};
use ulid_core::Ulid;

/// The ULIDs of blocks.
pub fn found_ulids(alloc: Global, blocks: &[Found]) -> Result<VecDeque<Ulid>, NoMemory>
    ensures { IfOk result (λ ulids. ulids.items ≡ names_of blocks.now) }
{
    let mut ulids = VecDeque::new(alloc);
    for block in blocks {
        ulids.push_back(block.ulid)?;
    }
    Ok(ulids)
}

/// The ULIDs of those blocks that had expired at a moment.
pub fn expired_ulids(
    alloc: Global,
    blocks: &[Found],
    retention: Option<Span>,
    begun: Moment,
) -> Result<VecDeque<Ulid>, NoMemory>
    ensures { IfOk result
        (λ ulids. ulids.items ≡ names_of (expired_at retention begun blocks.now)) }
{
    let mut ulids = VecDeque::new(alloc);
    for block in blocks {
        if is_expired(&block.meta, retention, begun) {
            ulids.push_back(block.ulid)?;
        }
    }
    Ok(ulids)
}

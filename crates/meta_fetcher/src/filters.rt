ghost use Rattle.std.specs.Prelude.{◌≡◌};
ghost use Rattle.std.specs.List.{filter};
ghost use Rattle.sync_filters.specs.Filters.{is_in_partition, is_consistent, is_unmarked};
ghost use Rattle.meta_fetcher.specs.Sightings.{passed_by};

use crate::SyncRules;
use moment_core::{Partition, Span};
use sync_filters::{Found, FoundList, consistent, in_partition, unmarked};

/// The blocks that pass the filters by times and by marks.
pub(crate) fn passed_blocks(mut found: Vec<Found>, rules: SyncRules) -> FoundList
    ensures { result ≡ passed_by rules found.items }
{
    keep_in_partition(&mut found, rules.partition);
    keep_consistent(&mut found, rules.consistency);
    keep_unmarked(&mut found, rules.mark_delay);
    FoundList::from_vec(found)
}

fn keep_in_partition(found: &mut Vec<Found>, partition: Partition)
    ensures { found.new.items
        ≡ filter (λ block. is_in_partition block.meta partition) found.old.items }
{
    found.retain(|block| in_partition(&block.meta, &partition));
}

fn keep_consistent(found: &mut Vec<Found>, delay: Span)
    ensures { found.new.items ≡ filter (λ block. is_consistent block delay) found.old.items }
{
    found.retain(|block| consistent(block, delay));
}

fn keep_unmarked(found: &mut Vec<Found>, delay: Span)
    ensures { found.new.items ≡ filter (λ block. is_unmarked block delay) found.old.items }
{
    found.retain(|block| unmarked(block, delay));
}

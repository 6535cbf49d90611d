ghost use Rattle.std.specs.Prelude.{◌≡◌};
ghost use Rattle.sync_filters.specs.Filters.{is_in_partition};

use block_meta::Meta;
use moment_core::Partition;

/// Tells whether the partition, whose ends count, has a time from the block's first one to its end. That end counts too, though no sample
/// of the block has it.
pub fn in_partition(meta: &Meta, partition: &Partition) -> bool
    ensures { result ≡ is_in_partition meta.now partition.now }
{
    partition.low <= meta.max_time && meta.min_time <= partition.high
}

ghost use Rattle.std.specs.Prelude.{◌≤◌};
ghost use Rattle.block_keys.specs.Keys.{segment_limit};

use crate::ByteRange;
use wire_bytes::NumberList;

/// A group of chunks that stand near one another in a segment.
#[derive(Drop)]
pub struct GroupRead {
    pub segment: u32,
    pub first: u64,
    pub range: ByteRange,
    pub references: NumberList,
    ghost lowest: { 1 ≤ segment },
    ghost highest: { segment ≤ segment_limit },
}

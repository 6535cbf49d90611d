ghost use Rattle.std.specs.Prelude.{◌*◌, ◌^◌, ◌<◌, ◌≤◌, All};
ghost use Rattle.index_parts.specs.IndexFile.{series_unit};

use crate::ByteRange;
use wire_bytes::NumberList;

/// Series that follow one another in the list of all series, and the range in which they stand.
#[derive(Drop)]
pub struct RunRead {
    pub range: ByteRange,
    pub numbers: NumberList,
    ghost begins: { All (λ n. range.from ≤ series_unit * n) numbers },
    ghost small: { All (λ n. n < 2 ^ 32) numbers },
}

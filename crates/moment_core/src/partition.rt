ghost use Rattle.std.specs.Prelude.{◌≡◌, ◌↔◌, ℤ};
ghost use Rattle.moment_core.specs.Partitions.{IsIn, all_times, common};

use base::{List, NoMemory, TryCopy};

/// A range of times in milliseconds, closed at both ends.
#[derive(Clone, Copy, Debug, PartialEq, Eq)]
pub struct Partition {
    pub low: i64,
    pub high: i64,
}

/// A list of partitions. A script's are those of its gateways, in the gateways' order.
pub type PartitionList = List<Partition>;

impl Partition {
    /// The partition of a gateway whose line names none.
    pub fn all_times() -> Partition
        ensures { result ≡ all_times }
    {
        Partition {
            low: i64::MIN,
            high: i64::MAX,
        }
    }

    /// The times that lie in both. Where there are none, the last is before the first.
    pub fn common(&self, other: &Partition) -> Partition
        ensures value { result ≡ common self.now other.now }
        ensures shared { (time : ℤ)
            → IsIn result time ↔ (IsIn self.now time × IsIn other.now time) }
    {
        common_times(self, other)
    }
}

fn common_times(one: &Partition, other: &Partition) -> Partition
    ensures { result ≡ common one.now other.now }
{
    Partition {
        low: one.low.max(other.low),
        high: one.high.min(other.high),
    }
}

impl TryCopy for Partition {
    fn copy(&self) -> Result<Self, NoMemory>
        ensures { result ≡ Ok self.now }
    {
        Ok(*self)
    }
}

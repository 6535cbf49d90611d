//! Which gateways a query asks, and for which times: a gateway answers for its partition, so that each sample is asked
//! for where it may be, and gateways without such times are left alone.

ghost use Rattle.std.specs.Prelude.{◌≡◌, ◌<◌, ◌≤◌, ◌^◌, [], ◌∷◌, ◌++◌, length, IfOk, OnOk};
ghost use Rattle.querier.specs.Asks.{asks_from, asks_of};

use base::{List, NoMemory, TryCopy};
use moment_core::{Partition, PartitionList};
use std::alloc::Global;

/// What one gateway is asked for: the times in milliseconds from `low` to `high`, both included.
#[derive(Clone, Copy, Debug, PartialEq, Eq)]
pub struct Ask {
    /// The gateway's place.
    pub gateway: u32,
    pub low: i64,
    pub high: i64,
}

/// A list of what gateways are asked for.
pub type AskList = List<Ask>;

impl TryCopy for Ask {
    fn copy(&self) -> Result<Self, NoMemory> {
        Ok(*self)
    }
}

/// What each gateway is asked in a query for the times from `low` to `high`, both included: those that lie in its partition.
/// A gateway whose partition has none of them is not asked.
pub fn fan_out(
    alloc: Global,
    partitions: &PartitionList,
    low: i64,
    high: i64,
) -> Result<AskList, NoMemory>
    requires few { length partitions.now ≤ 2 ^ 32 }
    ensures asks { IfOk result (λ asks. asks ≡ asks_of low high partitions.now) }
{
    asks_in(alloc, partitions.members(), &Partition { low, high })
}

fn asks_in(alloc: Global, partitions: &[Partition], times: &Partition) -> Result<AskList, NoMemory>
    requires few { length partitions.now ≤ 2 ^ 32 }
    ensures { IfOk result (λ asks. asks ≡ asks_of times.now.low times.now.high partitions.now) }
{
    let mut asks = AskList::new(alloc);
    for (place, partition) in partitions.iter().enumerate() {
        add_ask(&mut asks, place, partition, times)?;
    }
    Ok(asks)
}

/// Adds what the gateway at a place is asked, if it is.
fn add_ask(
    asks: &mut AskList,
    place: usize,
    partition: &Partition,
    times: &Partition,
) -> Result<(), NoMemory>
    requires { place < 2 ^ 32 }
    ensures { OnOk result (asks.new ≡ asks.old ++ asks_from times.now place (partition.now ∷ [])) }
{
    let shared = times.common(partition);
    if shared.low <= shared.high {
        asks.push(Ask {
            gateway: place as u32,
            low: shared.low,
            high: shared.high,
        })?;
    }
    Ok(())
}

ghost use Rattle.std.specs.Prelude.{◌≡◌, ◌<◌, ◌^◌, IfOk};
ghost use Rattle.base.specs.Reading.{Gives};
ghost use Rattle.serde_json.specs.View.{view};
ghost use Rattle.block_meta.specs.declared.refusal.MetaRefusal.TheVariants.{NoMemory};
ghost use Rattle.block_meta.specs.MetaReading.{stats_of, stats_members_of};
ghost use Rattle.block_meta.specs.MetaValue.{stats_value};

use crate::MetaRefusal;
use crate::json_values::{count, missing, section};
use serde_json::{Map, Value, put};
use std::alloc::{AllocError, Global};

/// How much a block holds.
#[derive(Clone, Copy)]
pub(crate) struct Stats {
    pub(crate) series: u64,
    pub(crate) samples: u64,
    pub(crate) chunks: u64,
}

impl Stats {
    #[tactic(auto, unfolding(crate::specs::MetaReading::stats_of))]
    pub(crate) fn read(alloc: Global, meta: &Value) -> Result<Stats, MetaRefusal>
        ensures { Gives NoMemory (λ stats. stats) result (stats_of (view meta.now)) }
    {
        match section(alloc, meta, "stats")? {
            Some(stats) => Stats::read_members(alloc, stats),
            None => Err(missing(alloc, "stats")),
        }
    }

    #[tactic(auto, unfolding(crate::specs::MetaReading::stats_members_of))]
    fn read_members(alloc: Global, stats: &Value) -> Result<Stats, MetaRefusal>
        ensures { Gives NoMemory (λ stats. stats) result (stats_members_of (view stats.now)) }
    {
        Ok(Stats {
            series: count(alloc, stats, "numSeries")?,
            samples: count(alloc, stats, "numSamples")?,
            chunks: count(alloc, stats, "numChunks")?,
        })
    }
}

#[tactic(auto, unfolding(crate::specs::MetaValue::stats_value))]
pub(crate) fn write_stats(
    alloc: Global,
    series: u64,
    samples: u64,
    chunks: u64,
) -> Result<Value, AllocError>
    ensures value { IfOk result (λ v. view v ≡ stats_value series samples chunks) }
    ensures fit { (series < 2 ^ 64) × (samples < 2 ^ 64) × (chunks < 2 ^ 64) }
{
    let mut stats = Map::new(alloc);
    put(&mut stats, alloc, "numChunks", Value::from(chunks))?;
    put(&mut stats, alloc, "numSamples", Value::from(samples))?;
    put(&mut stats, alloc, "numSeries", Value::from(series))?;
    Ok(Value::Object(stats))
}

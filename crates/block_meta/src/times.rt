ghost use Rattle.std.specs.Prelude.{◌≡◌, ◌≤ℤ◌, pos, neg_ℤ, IfOk, IsTrue};
ghost use Rattle.base.specs.Reading.{Gives};
ghost use Rattle.serde_json.specs.View.{view};
ghost use Rattle.label_sets.specs.Limits.{time_limit};
ghost use Rattle.block_meta.specs.declared.refusal.MetaRefusal.TheVariants.{NoMemory};
ghost use Rattle.block_meta.specs.Lawful.{AreLawfulTimes, are_lawful_times};
ghost use Rattle.block_meta.specs.MetaReading.{times_of};

use crate::MetaRefusal;
use crate::json_values::{needed_member, whole};
use label_sets::TIME_LIMIT;
use serde_json::Value;
use std::alloc::Global;

/// The times of a block: it holds samples from the first up to the second, which it does not include.
#[derive(Clone, Copy)]
pub(crate) struct Times {
    pub(crate) min: i64,
    pub(crate) max: i64,
}

/// How far from 0 a time may be.
const LIMIT: i128 = TIME_LIMIT as i128;

impl Times {
    #[tactic(auto, unfolding(crate::specs::MetaReading::times_of))]
    pub(crate) fn read(alloc: Global, meta: &Value) -> Result<Times, MetaRefusal>
        ensures gives { Gives NoMemory (λ times. times) result (times_of (view meta.now)) }
        ensures lawful { IfOk result (λ times. AreLawfulTimes times.min times.max) }
    {
        let min = whole(alloc, needed_member(alloc, meta, "minTime")?, "minTime")?;
        let max = whole(alloc, needed_member(alloc, meta, "maxTime")?, "maxTime")?;
        if are_lawful(min, max) {
            Ok(Times {
                min: narrow_time(min),
                max: narrow_time(max),
            })
        } else {
            Err(MetaRefusal::BadTimes)
        }
    }
}

fn narrow_time(time: i128) -> i64
    requires low { neg_ℤ (pos time_limit) ≤ℤ time }
    requires high { time ≤ℤ pos time_limit }
    ensures { result ≡ time }
{
    time as i64
}

#[tactic(auto, unfolding(crate::specs::Lawful::are_lawful_times))]
fn are_lawful(min: i128, max: i128) -> bool
    ensures value { result ≡ are_lawful_times min max }
    ensures lawful { IsTrue result → AreLawfulTimes min max }
{
    -LIMIT <= min && min < max && max <= LIMIT
}

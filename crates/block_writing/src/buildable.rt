//! The test of what `build` asks of its series.
ghost use Rattle.std.specs.Prelude.{IsTrue, ◌↔◌, map};
ghost use Rattle.std.specs.List.Sorted.{IsStrictlySortedBy};
ghost use Rattle.label_sets.specs.Labels.{compare_sets};
ghost use Rattle.label_sets.specs.Times.{IsWithin};
ghost use Rattle.block_writing.specs.Built.{AreBuildable, AreOfBlock};
ghost use Rattle.block_writing.specs.Writing.{plan_fields};

use block_meta::BlockPlan;
use label_sets::{Sample, Series, SeriesList, is_within, times_ascend};

/// Whether each series comes after the one before, by its labels.
fn ascend(series: &[Series]) -> bool
    ensures { IsTrue result ↔ IsStrictlySortedBy compare_sets (map (λ s. s.labels) series.now) }
{
    series.is_sorted_by(|one, next| one.labels < next.labels)
}

/// Whether a sample lies within the plan's times.
fn is_of_block(plan: &BlockPlan, sample: &Sample) -> bool
    ensures { IsTrue result ↔ IsWithin plan.now.min_time plan.now.max_time sample.now }
{
    is_within(sample, plan.min_time, plan.max_time)
}

/// Whether these are samples that a series of the plan's block can have.
fn are_of_block(plan: &BlockPlan, samples: &[Sample]) -> bool
    ensures { IsTrue result ↔ AreOfBlock (plan_fields plan.now) samples.now }
{
    if samples.is_empty() {
        return false;
    }
    for sample in samples {
        if !is_of_block(plan, sample) {
            return false;
        }
    }
    times_ascend(samples)
}

/// Whether `build` may build a block of the plan of these series.
pub fn may_build(plan: &BlockPlan, series: &SeriesList) -> bool
    ensures { IsTrue result ↔ AreBuildable (plan_fields plan.now) series.now }
{
    let series = series.members();
    for one in series {
        if !are_of_block(plan, one.samples.members()) {
            return false;
        }
    }
    ascend(series)
}

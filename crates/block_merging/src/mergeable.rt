//! The test of what a merge of blocks asks of them.
ghost use Rattle.std.specs.Prelude.{IsTrue, ◌↔◌};
ghost use Rattle.std.specs.List.{AllByRecursion};
ghost use Rattle.block_merging.specs.Inputs.{LiesWithin};

use block_meta::{BlockFiles, BlockPlan};

fn lies_within(plan: &BlockPlan, block: &BlockFiles) -> bool
    ensures { IsTrue result ↔ LiesWithin plan.now block.now }
{
    plan.min_time <= block.meta.min_time && block.meta.max_time <= plan.max_time
}

/// Whether `merge_blocks` may merge blocks into the one of a plan: their times lie within the plan's.
pub fn may_merge(plan: &BlockPlan, inputs: &[BlockFiles]) -> bool
    ensures { IsTrue result ↔ AllByRecursion (LiesWithin plan.now) inputs.now }
{
    for input in inputs {
        if !lies_within(plan, input) {
            return false;
        }
    }
    true
}

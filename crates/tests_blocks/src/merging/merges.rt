use crate::built::wide_plan;
use crate::merging::chunks::print_block;
use crate::says::say;
use block_merging::{may_merge, merge_blocks};
use block_meta::{BlockFiles, BlockPlan};
use label_sets::{Text, TextList};
use std::alloc::Global;

/// Prints the chunks of the block that blocks become.
pub(crate) fn print_merge(rt: &HostRuntime, blocks: &[BlockFiles]) {
    match wide_plan(rt.alloc(), 2) {
        Some(plan) => {
            print_planned(rt, &plan, blocks);
            drop(plan);
        }
        None => say(rt, "no memory"),
    }
}

fn print_planned(rt: &HostRuntime, plan: &BlockPlan, blocks: &[BlockFiles]) {
    if !may_merge(plan, blocks) {
        return say(rt, "  no blocks of the plan");
    }
    match merge_blocks(rt.alloc(), plan, blocks, &replicas(rt.alloc())) {
        Ok(block) => {
            print_block(rt, blocks, &block);
            drop(block);
        }
        Err(refusal) => {
            let _ = println!(rt; "  {refusal:?}");
        }
    }
}

/// The one replica label, `r`.
fn replicas(alloc: Global) -> TextList {
    let mut names = TextList::new(alloc);
    if let Ok(name) = Text::from_str(alloc, "r") {
        let _ = names.push(name);
    }
    names
}

//! Blocks that are built of samples.
ghost use Rattle.std.specs.Prelude.{◌<◌, ◌≤◌};
ghost use Rattle.block_meta.specs.Lawful.{AreLawfulTimes};

use crate::merging::{print_block, read_list, read_samples};
use crate::objects::print_objects;
use crate::says::{say, show};
use crate::verdicts::print_counts;
use block_content::check;
use block_keys::ObjectList;
use block_meta::{BlockFiles, BlockPlan, ParentList, files_objects, own_sources};
use block_writing::{build, may_build};
use label_sets::{LabelSet, Series, SeriesList, Text};
use std::alloc::Global;
use std::str;
use ulid_core::Ulid;

/// The block of the worked rows.
fn block() -> Ulid {
    Ulid::from_parts(0, 10)
}

/// The plan of a block of its own, or of one that others become, by its level.
fn plan_of(alloc: Global, level: u32, min_time: i64, max_time: i64) -> Option<BlockPlan>
    requires { AreLawfulTimes min_time max_time }
{
    let Ok(source) = Text::from_str(alloc, "sidecar") else {
        return None;
    };
    let Ok(sources) = own_sources(alloc, block()) else {
        return None;
    };
    Some(BlockPlan {
        ulid: block(),
        min_time,
        max_time,
        level,
        sources,
        parents: ParentList::new(alloc),
        labels: LabelSet::empty(alloc),
        source,
    })
}

/// The plan of a block that may have all samples of these rows, by its level.
pub(crate) fn wide_plan(alloc: Global, level: u32) -> Option<BlockPlan> {
    plan_of(alloc, level, -1_000_000_000_000_000, 1_000_000_000_000_000)
}

/// Builds a block, where there is a plan and it may be built.
fn build_of(alloc: Global, plan: Option<BlockPlan>, series: &SeriesList) -> Option<BlockFiles> {
    let Some(plan) = plan else {
        return None;
    };
    let built = if may_build(&plan, series) {
        build(alloc, &plan, series).ok()
    } else {
        None
    };
    drop(plan);
    built
}

/// The block of some series, where it may be built.
pub(crate) fn block_of(alloc: Global, series: &SeriesList) -> Option<BlockFiles> {
    build_of(alloc, wide_plan(alloc, 1), series)
}

/// Prints the objects of a block from 1000 to 2000 with these series.
pub(crate) fn print_built(rt: &HostRuntime, text: &str) {
    let series = read_list(rt.alloc(), text);
    let objects = objects_of(rt.alloc(), &series);
    drop(series);
    match objects {
        Some(objects) => {
            print_objects(rt, objects.members());
            drop(objects);
        }
        None => say(rt, "no objects"),
    }
}

fn objects_of(alloc: Global, series: &SeriesList) -> Option<ObjectList> {
    match build_of(alloc, plan_of(alloc, 1, 1000, 2000), series) {
        Some(files) => files_objects(alloc, files).ok(),
        None => None,
    }
}

/// Prints the chunks of a block of these series, and what a check counts in it.
pub(crate) fn print_chunks(rt: &HostRuntime, text: &str) {
    let series = read_list(rt.alloc(), text);
    let built = block_of(rt.alloc(), &series);
    drop(series);
    match built {
        Some(files) => {
            print_block(rt, &[], &files);
            print_totals(rt, files);
        }
        None => say(rt, "  not built"),
    }
}

pub(crate) fn print_totals(rt: &HostRuntime, files: BlockFiles) {
    match check(rt.alloc(), block(), files) {
        Ok(checked) => {
            print_counts(rt, &checked);
            drop(checked);
        }
        Err(refusal) => show(rt, &refusal),
    }
}

/// Prints how many bytes the index of a block has whose one sample stands under a label with a value of so many bytes, or why
/// there is no such block.
pub(crate) fn print_large(rt: &HostRuntime, text: &str) {
    let Ok(value) = vec![in rt.alloc(); b'x'; text.parse().unwrap_or(0)] else {
        return say(rt, "no memory");
    };
    let mut labels = LabelSet::empty(rt.alloc());
    let _ = labels.add("a", str::from_utf8(value.as_slice()).unwrap_or(""));
    let samples = read_samples(rt.alloc(), "0:0");
    let mut series = SeriesList::new(rt.alloc());
    let _ = series.push(Series { labels, samples });
    print_size(rt, &series);
    drop(series);
}

fn print_size(rt: &HostRuntime, series: &SeriesList) {
    let Some(plan) = wide_plan(rt.alloc(), 1) else {
        return say(rt, "no memory");
    };
    if !may_build(&plan, series) {
        drop(plan);
        return say(rt, "not built");
    }
    let built = build(rt.alloc(), &plan, series);
    drop(plan);
    match built {
        Ok(files) => {
            let _ = println!(rt; "an index of {} bytes", files.index.bytes().len());
            drop(files);
        }
        Err(refusal) => show(rt, &refusal),
    }
}

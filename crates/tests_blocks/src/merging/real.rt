//! Blocks of a server, merged with themselves moved in time: `real ULID STEP`.
use crate::built::block_of;
use crate::checks::open;
use crate::merging::given::add_block;
use crate::merging::merges::print_merge;
use crate::says::{cut, say};
use base::TryCopy;
use block_content::content;
use block_loading::load;
use block_meta::BlockFiles;
use label_sets::{Sample, SampleList, Series, SeriesList};
use std::alloc::Global;
use ulid_core::Ulid;

/// Prints the chunks of what the block that a row names becomes with itself moved in time.
pub(crate) fn print_real(rt: &HostRuntime, row: &str) {
    let (name, step) = cut(row);
    match loaded(rt, name) {
        Some(block) => print_moved(rt, block, step.parse().unwrap_or(0)),
        None => say(rt, "  no block"),
    }
}

fn print_moved(rt: &HostRuntime, block: BlockFiles, step: i64) {
    let later = moved(rt.alloc(), &block, step);
    let mut blocks = Vec::new(rt.alloc());
    add_block(&mut blocks, Some(block));
    add_block(&mut blocks, later);
    print_merge(rt, blocks.as_slice());
    drop(blocks);
}

fn loaded(rt: &HostRuntime, name: &str) -> Option<BlockFiles> {
    let Ok(ulid) = Ulid::read(name) else {
        return None;
    };
    match open(rt, 0, "server") {
        Some(mut shelf) => {
            let block = load(rt.alloc(), &mut shelf, ulid);
            drop(shelf);
            block.ok()
        }
        None => None,
    }
}

/// A block of the same series, so many milliseconds later.
fn moved(alloc: Global, block: &BlockFiles, step: i64) -> Option<BlockFiles> {
    let Ok(list) = content(alloc, block) else {
        return None;
    };
    let later = moved_list(alloc, list.members(), step);
    drop(list);
    let block = block_of(alloc, &later);
    drop(later);
    block
}

fn moved_list(alloc: Global, list: &[Series], step: i64) -> SeriesList {
    let mut made = SeriesList::new(alloc);
    for series in list {
        if let Ok(labels) = series.labels.copy() {
            let samples = moved_samples(alloc, series.samples.members(), step);
            let _ = made.push(Series { labels, samples });
        }
    }
    made
}

fn moved_samples(alloc: Global, given: &[Sample], step: i64) -> SampleList {
    let mut samples = SampleList::new(alloc);
    for sample in given {
        let time = sample.time.saturating_add(step);
        let pattern = sample.pattern;
        let _ = samples.push(Sample { time, pattern });
    }
    samples
}

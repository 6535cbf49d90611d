//! Merges of blocks, whose chunks are printed. What is to be printed was worked out by hand from the rule; the samples of a
//! server's blocks are those that its own reader found.

mod chunks;
mod given;
mod merges;
mod real;
mod series;

pub(crate) use crate::merging::chunks::print_block;
use crate::merging::given::read_blocks;
use crate::merging::merges::print_merge;
pub(crate) use crate::merging::real::print_real;
pub(crate) use crate::merging::series::{read_list, read_samples};

/// Prints the chunks of what the blocks of a row become: chunks that share times are merged, by the first block's pattern at each
/// time and 120 samples a chunk, and a chunk that shares none is carried as it is.
pub(crate) fn print_merged(rt: &HostRuntime, row: &str) {
    let blocks = read_blocks(rt.alloc(), row);
    print_merge(rt, blocks.as_slice());
    drop(blocks);
}

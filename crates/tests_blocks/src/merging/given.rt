//! Blocks in words. ` / ` stands between two blocks. ` !` behind a block cuts the last byte of its segment off.
ghost use Rattle.std.specs.Prelude.{◌≤◌, length, IfOk};

use crate::built::block_of;
use crate::merging::series::read_list;
use base::{List, NoMemory};
use block_meta::BlockFiles;
use std::alloc::Global;
use wire_bytes::Blob;

/// The blocks of a row. What is no block is left out.
pub(crate) fn read_blocks(alloc: Global, row: &str) -> Vec<BlockFiles> {
    let mut blocks = Vec::new(alloc);
    for text in row.split(" / ") {
        add_block(&mut blocks, read_block(alloc, text));
    }
    blocks
}

/// Adds a block, if there is one.
pub(crate) fn add_block(blocks: &mut Vec<BlockFiles>, block: Option<BlockFiles>) {
    if let Some(block) = block {
        drop(blocks.push(block));
    }
}

fn read_block(alloc: Global, text: &str) -> Option<BlockFiles> {
    let Some(front) = text.strip_suffix(" !") else {
        return listed_block(alloc, text);
    };
    match listed_block(alloc, front) {
        Some(block) => shortened(alloc, block),
        None => None,
    }
}

fn listed_block(alloc: Global, text: &str) -> Option<BlockFiles> {
    let list = read_list(alloc, text);
    let block = block_of(alloc, &list);
    drop(list);
    block
}

/// The block without the last byte of its first segment, and without the others.
fn shortened(alloc: Global, block: BlockFiles) -> Option<BlockFiles> {
    let BlockFiles {
        meta,
        index,
        segments,
    } = block;
    let left = first_cut(alloc, segments.members());
    drop(segments);
    match left {
        Ok(segments) => Some(BlockFiles {
            meta,
            index,
            segments,
        }),
        Err(_) => {
            drop(meta);
            drop(index);
            None
        }
    }
}

fn first_cut(alloc: Global, segments: &[Blob]) -> Result<List<Blob>, NoMemory>
    ensures { IfOk result (λ left. length left ≤ 1) }
{
    let mut left = List::new(alloc);
    left.push(Blob::from_bytes(alloc, without_last(segments))?)?;
    Ok(left)
}

fn without_last(segments: &[Blob]) -> &[u8] {
    match segments {
        [first, ..] => {
            let bytes = first.bytes();
            &bytes[..bytes.len().saturating_sub(1)]
        }
        [] => &[],
    }
}

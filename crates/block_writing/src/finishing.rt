//! The files of a block of what a writer holds.
ghost use Rattle.std.specs.Prelude.{◌≡◌, [], Err, IfOk};
ghost use Rattle.std.specs.List.{AllByRecursion};
ghost use Rattle.base.specs.Grammar.{IsBytes};
ghost use Rattle.block_writing.specs.Files.{HaveNoIndex};
ghost use Rattle.block_writing.specs.Refusals.{build_refusal};
ghost use Rattle.block_writing.specs.Writing.{put_in, IsWriting};
ghost use Rattle.block_writing.specs.WrittenMeta.{IsWritten};

use crate::counts::Counts;
use crate::written_meta::meta_of;
use base::NoMemory;
use block_meta::{BlobList, BlockFiles, BlockPlan, BuildRefusal};
use chunk_files::SegmentWriter;
use index_writing::{IndexWriteRefusal, IndexWriter};
use std::alloc::Global;

/// The bytes of the segments, which are shared from here on, as a block may be kept for long.
fn bytes_of(alloc: Global, writers: Vec<SegmentWriter>) -> Result<BlobList, NoMemory>
    ensures { IfOk result (λ segments. segments ≡ writers.items) }
{
    let mut segments = BlobList::new(alloc);
    for writer in writers {
        segments.push(writer.finish().shared()?)?;
    }
    Ok(segments)
}

/// A refusal of an index, as the block's.
fn refusal_of(cause: IndexWriteRefusal) -> BuildRefusal
    ensures { result ≡ build_refusal cause }
{
    match cause {
        IndexWriteRefusal::TooLarge => BuildRefusal::TooLarge,
        IndexWriteRefusal::NoMemory => BuildRefusal::NoMemory,
    }
}

/// The files of these series, none of whose chunks is left over.
pub(crate) fn finish(
    plan: BlockPlan,
    writers: Vec<SegmentWriter>,
    index: IndexWriter,
    counts: Counts,
) -> Result<BlockFiles, BuildRefusal>
    requires { IsWriting plan writers.items index [] counts }
    ensures written { IfOk result (IsWritten (put_in plan writers.items index [] counts)) }
    ensures too_large { result ≡ Err BuildRefusal.TooLarge
        → HaveNoIndex (put_in plan writers.items index [] counts).series }
    ensures bytes { IfOk result (λ files. IsBytes files.index
        × AllByRecursion IsBytes files.segments) }
{
    let alloc = *writers.allocator();
    let index = match index.finish() {
        Ok(index) => index,
        Err(cause) => return Err(refusal_of(cause)),
    };
    let segments = bytes_of(alloc, writers)?;
    let meta = meta_of(alloc, plan, counts, &index, segments.members())?;
    Ok(BlockFiles {
        meta,
        index,
        segments,
    })
}

//! The builder of a block: chunk data in segments, the series in an index, and what the block says of itself.
#![tactic(auto)]

mod block_writer;
mod buildable;
mod builder;
mod counts;
mod finishing;
mod segments;
mod written_meta;

pub use block_meta::{BlobList, BlockFiles, BuildRefusal};
pub use block_writer::BlockWriter;
pub use buildable::may_build;
pub use builder::{build, put_parts};
pub use segments::SegmentPlace;

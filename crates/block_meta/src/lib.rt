//! The `meta.json` of a block and its deletion mark, and the files that make a block.
#![tactic(auto)]

mod block_files;
mod block_plan;
mod build_refusal;
mod compaction;
mod deletion_mark;
mod file_size;
mod item;
mod json_values;
mod meta;
mod objects;
mod of_blocks;
mod parent;
mod refusal;
mod sources;
mod stats;
mod thanos;
mod times;
mod ulid_sets;

pub use block_files::{BlobList, BlockFiles};
pub use block_plan::{BlockPlan, own_sources};
pub use build_refusal::BuildRefusal;
pub use deletion_mark::DeletionMark;
pub use file_size::{FileSize, FileSizeList};
pub use meta::{Meta, later_end};
pub use objects::files_objects;
pub use of_blocks::{mark_of, meta_of};
pub use parent::{Parent, ParentList};
pub use refusal::MetaRefusal;
pub use ulid_sets::{HasSources, union_of_sources};

//! Several blocks become one: which chunks are carried as they stand and which are merged, and what the new block holds.
#![tactic(auto)]

mod block_merge;
mod content_laws;
mod group_taking;
mod input_chunk;
mod laws;
mod lent_chunks;
mod lent_labels;
mod listing;
mod merge_refusal;
mod mergeable;
mod placed_chunk;
mod queues;
mod runs;
mod series_merge;
mod series_queue;
mod standing_data;

pub use block_merge::merge_blocks;
pub use content_laws::{
    built_blocks_pass, built_is_content, built_is_one, content_is_one, files_are_one,
    put_has_content, written_blocks_pass, written_is_content,
};
pub use laws::{compacted_blocks_fit, merge_has_content, merge_holds_first, merge_is_one};
pub use merge_refusal::MergeRefusal;
pub use mergeable::may_merge;

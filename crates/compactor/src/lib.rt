//! Compaction: the blocks of a bucket that belong together become one, and blocks that are no longer needed are marked.
#![tactic(auto)]

mod compact;
mod compact_end;
mod found;
mod input;
mod input_files;
mod job;
mod laws;
mod marks;
mod merging;
mod named;
mod new_block;
mod new_mark;
mod reads;
mod reads_end;
mod reason;
mod running;
mod stage;
mod sync_rules;

pub use compact::Compact;
pub use compact_end::CompactEnd;
pub use found::{expired_ulids, found_ulids};
pub use input::{Input, InputList, Read, ReadList};
pub use job::{Job, next_job};
pub use laws::{compactions_begin_with_a_sync, compactions_have_one_end, groups_are_counted};
pub use marks::{Marks, MarksEnd};
pub use merging::{Merging, merge_inputs};
pub use reads::Reads;
pub use reads_end::{Gathered, ReadsEnd};
pub use reason::Reason;
pub use running::run_compaction;

//! A gateway's call over the blocks of its view: the ranges that it reads of each block, and the series that it answers.
#![tactic(auto)]

mod block_call;
mod chunk_steps;
mod index_steps;
mod laws;
mod run_steps;
mod running;
mod select;
mod series_call;
mod work;

pub use block_call::{BlockCall, BlockOutcome};
pub use laws::{
    answers_are_of_shares, answers_lie_in_the_range, caches_are_of_reads, calls_are_exact,
    calls_find_their_blocks, calls_have_one_end, calls_read_their_blocks, calls_show_their_ends,
};
pub use running::{CallLeft, run_call};
pub use series_call::{SeriesCall, SeriesEnd};

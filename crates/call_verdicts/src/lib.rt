//! What a call of the program comes to: its words, what it opens and reads, the check of a block, its verdict and its status.
#![tactic(auto)]

mod check;
mod check_way;
mod ended;
mod input;
mod input_refusal;
mod opening;
mod output;
mod run;
mod shelf_loading;
mod shelf_reading;
mod status;
mod status_number;
mod verdict;
mod words;

pub use check::check_block;
pub use check_way::{CheckWay, InTurn, Stage};
pub use ended::Ended;
pub use input::read_all;
pub use input_refusal::InputRefusal;
pub use opening::{Ready, read_and_open};
pub use output::{SinkFault, write_all};
pub use report_lines;
pub use report_lines::script_running;
pub use run::Run;
pub use shelf_reading::{ReadBlocks, read_blocks};
pub use status::Status;
pub use verdict::Verdict;
pub use words::{Asked, Named, read_check, read_generate, read_replay, read_serial};

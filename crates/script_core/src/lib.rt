//! Scripts: texts that say what a run does.
#![tactic(auto)]

mod block;
mod body;
mod draft;
mod inline_block;
mod part_reader;
mod phase_lines;
mod reader;
mod script;
mod series_map;
mod series_parts;
mod setup_lines;

pub use block::{Block, BlockList};
pub use body::Body;
pub use part_reader::PartReader;
pub use reader::LONGEST_TEXT;
pub use script::Script;
pub use script_fields::{LineCause, ScriptRefusal};
pub use script_workers::{Hand, Phase, PhaseList, Task, TaskList, Work, Worker, WorkerList};
pub use series_parts::LONGEST_SAMPLE;

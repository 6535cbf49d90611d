//! The record of a run: its script and its journal as bytes, both ways.
#![tactic(auto)]

mod cause;
mod entries;
mod entries_written;
mod fields;
mod kinds;
mod laws;
mod operations;
mod reader;
mod reading;
mod refusal;
mod replies;
mod run_record;
mod sizes;
mod writing;

pub use cause::RecordCause;
pub use laws::journals_are_writable;
pub use reading::read_record;
pub use refusal::RecordRefusal;
pub use run_record::{MOST_BYTES, Record};
pub use writing::write_record;

//! The program as a library: it reads words and a script, runs the script over a bucket, and writes the report.
#![tactic(auto)]

mod checking;
mod day;
mod laws;
mod preparing;
mod replay;
mod runner;
mod standard;
mod telling;
mod text_parts;
mod tool;

pub use call_verdicts::report_lines::CheckOutcome;
pub use call_verdicts::script_running::{
    Came, CleanEnd, CompactEnd, NoAnswer, Outcome, QueryOutcome, Stop, SyncOutcome, UploadEnd,
};
pub use call_verdicts::{InputRefusal, Run, SinkFault, Status, Verdict, read_all, write_all};
pub use laws::{
    calm_runs_end_as_asked, journals_tell_the_report, journals_tell_the_summary,
    shelves_tell_settings, told_answers_are_sound, told_misses_are_explained,
};
pub use replay::run_replay;
pub use run_notes::RunNote;
pub use runner::Crew;
pub use standard::{ReaderSource, WriterSink};
pub use tool::run_tool;

//! What a line of a script is made of: its fields and their values, the rules, samples, and what is wrong with a line.
#![tactic(auto)]

mod cause;
mod fields;
mod line_kind;
mod line_refusal;
mod rule_kind;
mod rule_name;
mod samples;
mod script_refusal;
mod texts;
mod values;

pub use cause::LineCause;
pub use fields::{after_space, cut_line, is_silent, next_field, only_field};
pub use line_kind::LineKind;
pub use line_refusal::LineRefusal;
pub use rule_kind::RuleKind;
pub use samples::{are_whole, are_within, have_small_numbers, read_samples};
pub use script_refusal::ScriptRefusal;
pub use texts::text_place;
pub use values::{is_reserved, is_time, stop_count, time, ulid};

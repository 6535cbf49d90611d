//! Label sets, texts, and the series and samples that stand under label sets.
#![tactic(auto)]

mod label;
mod label_refusal;
mod label_set;
mod name;
mod notation;
mod sample;
mod sample_text;
mod series;
mod text;

pub use label::Label;
pub use label_refusal::LabelRefusal;
pub use label_set::{LabelSet, final_labels, is_among, reduced};
pub use name::{is_name, is_name_byte, is_name_start};
pub use sample::{Sample, SampleList, SampleRefusal, TIME_LIMIT, is_within, times_ascend};
pub use series::{Series, SeriesList, sample_count};
pub use text::{Text, TextList};

//! A Prometheus index of version 2 as a whole: its bytes are a list of series, each with its labels and its chunks.
#![tactic(auto)]

mod difference;
mod index_reader;
mod laws;
mod lent_order;
mod lent_parts;
mod lent_series;
mod nearby;
mod numbered;
mod opening;
mod postings;
mod ranked;
mod ranks;
mod refusal;
mod row_ranks;
mod rows;
mod series_labels;
mod sizes;
mod symbols;
mod whole;

pub use index_parts::{IndexSeries, IndexSeriesList};
pub use index_reader::IndexReader;
pub use laws::full_lists_are_few;
pub use lent_order::compare_lent;
pub use lent_parts::IndexParts;
pub use lent_series::{LentLabel, LentSeries, add_label, set_of};
pub use refusal::IndexRefusal;

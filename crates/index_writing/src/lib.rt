//! Writes an index of version 2, section by section.
#![tactic(auto)]

mod index_writer;
mod label_groups;
mod lent_text;
mod list_writing;
mod order;
mod parts;
mod section_places;
mod section_tables;
mod section_writing;
mod series_writing;
mod symbols_in_use;
mod toc_writing;
mod write_refusal;

pub use index_writer::IndexWriter;
pub use list_writing::{
    write_label_index, write_label_offsets, write_postings, write_postings_table, write_symbols,
};
pub use order::are_in_order;
pub use series_writing::write_series;
pub use toc_writing::write_toc;
pub use write_refusal::IndexWriteRefusal;

//! A Prometheus index of version 2: what its sections are and what the whole is, with readers of each section, in the whole file
//! or in a part of it. Each refusal has its place in the index.
#![tactic(auto)]

mod chunk_place;
mod fields;
mod header;
mod index_series;
mod list_reading;
mod part_sections;
mod postings_reading;
mod postings_row;
mod postings_table;
mod raw_series;
mod refusal;
mod row_search;
mod sections;
mod series_reading;
mod shifting;
mod symbol_table;
mod toc_reading;

pub use chunk_place::{ChunkList, ChunkPlace};
pub use header::{HEADER_SIZE, LEAST_SIZE, MAGIC, SERIES_UNIT, VERSION};
pub use index_series::{IndexSeries, IndexSeriesList};
pub use part_sections::{IndexPart, postings_in, postings_table_in, symbols_in};
pub use postings_reading::read_postings;
pub use postings_row::{PostingsRow, PostingsRowList, ROW_KIND};
pub use postings_table::{PostingsTable, read_postings_table};
pub use raw_series::{RawLabel, RawSeries, SymbolNumber};
pub use refusal::PartRefusal;
pub use row_search::Rows;
pub use series_reading::{
    OFFSET_COUNT, before_labels, chunks_behind, next_label, read_series, reference_of,
};
pub use shifting::shifted_refusal;
pub use symbol_table::{SymbolTable, read_symbols};
pub use toc_reading::{CONTENTS_SIZE, Toc, read_toc};

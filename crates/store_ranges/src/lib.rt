//! Which ranges of a block's index a gateway reads and what they give, and the cache that keeps ranges.
#![tactic(auto)]

mod asked;
mod byte_range;
mod cache;
mod cache_reads;
mod ends;
mod group_read;
mod group_reads;
mod groups;
mod label_reads;
mod range;
mod references;
mod run_read;
mod run_reads;
mod runs;
mod section_tests;
mod sections;
mod selecting;
mod selection;
mod series_reads;
mod span;
mod symbol_texts;

pub use asked::{Asked, index_size};
pub use byte_range::ByteRange;
pub use cache::IndexCache;
pub use cache_reads::{from_cache, keep};
pub use ends::{end_of_place, has_sections, section_range};
pub use group_read::GroupRead;
pub use group_reads::groups_to_read;
pub use groups::groups_of_references;
pub use references::references_of;
pub use run_read::RunRead;
pub use run_reads::runs_to_read;
pub use runs::{number_behind, runs_of_series};
pub use section_tests::{is_table, symbols_of};
pub use sections::Sections;
pub use selecting::select;
pub use selection::Selection;
pub use series_reads::{series_of_run, series_of_whole};
pub use span::Span;
pub use symbol_texts::SymbolTexts;

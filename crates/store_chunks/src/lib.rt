//! The chunks that ranges of a block give, and which of their samples a gateway shows.
#![tactic(auto)]

mod chunk_cut;
mod chunk_row;
mod chunk_rows;
mod chunks;
mod glimpse;
mod places;
mod row_shown;
mod shown;

pub use chunk_row::ChunkRow;
pub use chunk_rows::{read_behind, row_of_one};
pub use chunks::chunk_len;
pub use glimpse::{Glimpse, GroupShown, Pending, glimpses, places_of};
pub use places::{have_keys, sorted_places, taken_places};
pub use row_shown::all_shown;

//! What a block's files hold in the real formats: reading the series and samples of an index and its segments, and telling
//! whether a block may be shipped.
#![tactic(auto)]

mod check_refusal;
mod checked;
mod checking;
mod chunk_cause;
mod chunk_order;
mod chunk_reading;
mod content_reading;
mod counting;
mod index_reading;
mod naming;
mod places;
mod reading_bound;
mod shipping;
mod testing;

pub use check_refusal::CheckRefusal;
pub use checked::Checked;
pub use checking::check;
pub use chunk_cause::ChunkCause;
pub use chunk_reading::have_times_of;
pub use content_reading::content;
pub use index_reading::read_index;
pub use testing::test_content;

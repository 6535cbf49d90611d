//! Blocks on a shelf: loading their files, and telling whether they may be shipped.
#![tactic(auto)]

mod checking;
mod load_refusal;
mod loaded_block;
mod loading;
mod reading;

pub use checking::check_on_shelf;
pub use load_refusal::LoadRefusal;
pub use loaded_block::LoadedBlock;
pub use loading::load;

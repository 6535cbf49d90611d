//! ULIDs: the 128-bit names of blocks, and their text of 26 characters.
#![tactic(auto)]

mod characters;
mod ulid;

pub use ulid::{ENTROPY_COUNT, LEAST_RESERVED, RESERVED_COUNT, Ulid, UlidList, UlidRefusal};

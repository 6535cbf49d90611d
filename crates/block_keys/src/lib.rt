//! The keys of a block's objects in a bucket, and their texts.
#![tactic(auto)]

mod key;
mod names;
mod object;

pub use key::{Key, NotAKey, SEGMENT_LIMIT};
pub use names::{six_digits, text_in_block};
pub use object::{Object, ObjectList};

//! What std lacks and every crate shares: the list that crosses crates, want of memory as an answer, copies that are equal, and
//! the words and laws of exact readers and writers of texts and numbers.
#![tactic(auto)]

mod copy;
mod digits;
mod list;
mod memory;
mod number;

pub use copy::TryCopy;
pub use digits::{all_digits, short_number};
pub use list::{List, members_behind};
pub use memory::{NoMemory, cut_on_err};
pub use number::{NumberRefusal, put_signed, put_unsigned, read_signed, read_unsigned};

//! The texts and bytes of the lowest crates: a word for their kind, and the text; bytes are in hexadecimal. `written` prints
//! what the crates write, and `rules` whether the standard rules are copied as they are.

mod bytes;
mod rows;
mod written;

pub(crate) use crate::basics::rows::print_call;

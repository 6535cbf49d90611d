//! Texts that are metas or deletion marks: `meta` or `mark` and the text, or `meta+` or `mark+` and members that stand behind
//! those of a lawful one, where a key that comes twice has its last value. `bytes` reads a text that is not UTF-8, and `file`
//! reads a file of the folder `data`, which has metas as a Prometheus server (2.42) wrote them and some that were changed.

mod fields;
mod rows;

pub(crate) use crate::metas::rows::print_call;

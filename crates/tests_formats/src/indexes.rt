//! Indexes and their sections: read, written, and asked. The rows speak of the index at hand; `calls` has the words.

mod blocks;
mod caches;
mod calls;
mod chunk_notation;
mod made_sections;
mod parts;
mod pieces;
mod reader_calls;
mod section_calls;
mod selectors;
mod series_rows;
mod taken;

use crate::indexes::calls::print_call;
use crate::indexes::pieces::put_pieces;
use crate::indexes::series_rows::write;
use crate::says::{cut, file_of};

/// Does what a row says. Rows that make the index at hand print nothing: `new` begins one without bytes, `put` puts bytes to it, in
/// the notation of `pieces`, `write` makes it the one that is written of series, in the notation of `series_rows`, and `load FILE`
/// the one of a file. Any other row is a call, which is asked of a copy to which the pieces behind ` with ` were put first.
pub(crate) fn do_row(rt: &HostRuntime, index: &mut Vec<u8>, row: &str) {
    let (word, text) = cut(row);
    match word {
        "new" => index.clear(),
        "put" => put_pieces(index, text),
        "write" => write(rt, index, text),
        "load" => *index = file_of(rt, text),
        _ => print_call(rt, index.as_slice(), row),
    }
}

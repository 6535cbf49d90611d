use crate::indexes::caches::print_cache;
use crate::indexes::made_sections::print_made;
use crate::indexes::parts::print_over;
use crate::indexes::pieces::put_pieces;
use crate::indexes::reader_calls::print_reader;
use crate::indexes::section_calls::print_section;
use crate::indexes::selectors::print_read;
use crate::says::{cut, put, say, say_hex, show};
use index_parts::read_toc;
use index_v2::IndexReader;

/// Prints a call and its answer. `made` and a section, in the notation of `made_sections`, are the bytes that are written of
/// it, `bytes FROM END` those of the index from a place on, up to its end where none is named, and `toc` is its table of
/// contents. `symbols`, `table`, `list` and `raw` ask for a section of the index, `over` and `in` ask a reader over
/// parts of it, and the others ask its reader (`reader_calls`).
///
/// Without the index, `selector TEXT` reads a selector, `replica NAME TEXT` reads one beside a replica label, and
/// `select SELECTOR SET` asks one for a set. `cache CAPACITY RANGE=BYTES RANGE ..` keeps ranges in a cache or gets them.
pub(crate) fn print_call(rt: &HostRuntime, index: &[u8], row: &str) {
    put(rt, row);
    put(rt, " -> ");
    let (call, pieces) = row.split_once(" with ").unwrap_or((row, ""));
    let mut bytes = Vec::new(rt.alloc());
    let _ = bytes.extend_from_slice(index);
    put_pieces(&mut bytes, pieces);
    print_answer(rt, bytes.as_slice(), call);
}

fn print_answer(rt: &HostRuntime, index: &[u8], call: &str) {
    let (word, argument) = cut(call);
    let (first, rest) = cut(argument);
    match word {
        "made" => print_made(rt, index, argument),
        "bytes" => {
            let end = rest.parse().unwrap_or(index.len());
            match index.get(first.parse().unwrap_or(0)..end) {
                Some(bytes) => say_hex(rt, bytes),
                None => say(rt, "no bytes"),
            }
        }
        "toc" => show(rt, &read_toc(index)),
        "symbols" | "table" | "list" | "raw" => print_section(rt, index, word, argument),
        "selector" => print_read(rt, "", argument, ""),
        "replica" => print_read(rt, first, rest, ""),
        "select" => print_read(rt, "", first, rest),
        "cache" => print_cache(rt, first, rest),
        "over" => print_over(rt, index, argument),
        "in" => print_over(rt, index, call),
        _ => print_reader(rt, index, IndexReader::open(rt.alloc(), index), call),
    }
}

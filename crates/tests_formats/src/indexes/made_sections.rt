use crate::says::{cut, say_hex};
use crate::texts::texts_of;
use index_parts::read_toc;
use index_writing::{write_symbols, write_toc};

/// Prints the bytes of a section: `symbols TEXT,TEXT` has these symbols, and `toc` is the index's table of contents, made again
/// of what is read of it.
pub(crate) fn print_made(rt: &HostRuntime, index: &[u8], section: &str) {
    let (kind, text) = cut(section);
    let mut out = Vec::new(rt.alloc());
    if kind == "symbols" {
        let _ = write_symbols(&mut out, &texts_of(rt.alloc(), text));
    } else if let Ok(toc) = read_toc(index) {
        let _ = write_toc(&mut out, &toc);
    }
    say_hex(rt, out.as_slice());
}

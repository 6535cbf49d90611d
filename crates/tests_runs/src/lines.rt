//! The notation of scripts: lines with ` / ` between. `@NAME` stands for lines that were named before. Where memory is wanted, a
//! line is lacking, by which the row fails.
use crate::says::cut;
use std::alloc::Global;

/// One block is uploaded, and found by a query after it.
pub(crate) const ONE_BLOCK: &str = "gateway g
block 0000000000000000000000000A 1000 2000 {}
series {__name__=\"up\"} 1000:3ff0000000000000
at 0
upload 0000000000000000000000000A
at 1800000
sync g
query 0 5000 up";

/// Lines that rows speak of by a name.
#[derive(Drop)]
pub(crate) struct Named {
    name: String,
    lines: Vec<u8>,
}

/// Names lines: the name stands in front of them.
pub(crate) fn add_lines(named: &mut Vec<Named>, text: &str) {
    let alloc = *named.allocator();
    let (name, lines) = cut(text);
    let lines = script_of(alloc, named.as_slice(), lines);
    match String::from_str(alloc, name) {
        Ok(name) => {
            let _ = named.push(Named { name, lines });
        }
        Err(_) => drop(lines),
    }
}

/// The script of these lines.
pub(crate) fn script_of(alloc: Global, named: &[Named], text: &str) -> Vec<u8> {
    let mut script = Vec::new(alloc);
    if !text.is_empty() {
        for line in text.split(" / ") {
            match line.strip_prefix('@') {
                Some(name) => {
                    let _ = script.extend_from_slice(lines_of(named, name));
                }
                None => put_line(&mut script, line),
            }
        }
    }
    script
}

fn put_line(script: &mut Vec<u8>, line: &str) {
    let _ = script.extend_from_slice(line.as_bytes());
    let _ = script.push(b'\n');
}

/// The lines of that name. A name that no row gave stands for a line that no script may have.
fn lines_of<'a>(named: &'a [Named], name: &str) -> &'a [u8] {
    for one in named {
        if one.name.as_str() == name {
            return one.lines.as_slice();
        }
    }
    b"no such lines\n"
}

/// The script of one line so many times: the number stands in front of it.
pub(crate) fn repeated(alloc: Global, text: &str) -> Vec<u8> {
    let (count, line) = cut(text);
    let count: u32 = count.parse().unwrap_or(0);
    let mut script = Vec::new(alloc);
    for _ in 0..count {
        put_line(&mut script, line);
    }
    script
}

/// A script that ships a block of one series, whose one label has a value of so many bytes.
pub(crate) fn wide(alloc: Global, count: u32) -> Vec<u8> {
    let mut script = Vec::new(alloc);
    put_line(&mut script, "block 0000000000000000000000000A 0 1 {}");
    let _ = script.extend_from_slice(b"series {a=\"");
    for _ in 0..count {
        let _ = script.push(b'x');
    }
    put_line(&mut script, "\"} 0:0000000000000000");
    put_line(&mut script, "at 0");
    put_line(&mut script, "upload 0000000000000000000000000A");
    script
}

//! Checks blocks of real folders as an uploader does, builds blocks and merges them, and prints the verdicts, what is shipped,
//! what was built, and the chunks of what was merged. What is to be printed comes from Prometheus' own reader, or was worked out
//! by other means.

#![tactic(auto)]

mod built;
mod carried;
mod checks;
mod merging;
mod noting_shelf;
mod objects;
mod says;
mod verdicts;

use crate::built::{print_built, print_chunks, print_large};
use crate::carried::print_carried;
use crate::checks::print_asked;
use crate::merging::{print_merged, print_real};
use crate::objects::print_shipped;
use crate::says::{cut, put, say};
use crate::verdicts::{print_content, print_verdict};
use std::io;

/// A line of standard input is a call; most name a folder below this one and a block in it. `merge` has blocks in the notation of
/// `merging::given`, and `real` names a server's block in the folder `server`. Other lines are headings.
fn main(rt: HostRuntime) -> io::Result<()> {
    for line in rt.lines(rt.alloc()) {
        let line = line?;
        let (word, rest) = cut(line.as_str());
        print_row(&rt, line.as_str(), word, rest);
    }
    Ok(())
}

fn print_row(rt: &HostRuntime, row: &str, word: &str, rest: &str) {
    match word {
        "=" => say(rt, row),
        "content" => print_content(rt, rest),
        "shipped" => print_shipped(rt, rest),
        "built" => print_built(rt, rest),
        "merge" | "real" | "chunks" => print_merging(rt, row, word, rest),
        _ => print_call(rt, row, word, rest),
    }
}

/// Prints a row, and on lines of their own the chunks of the block.
fn print_merging(rt: &HostRuntime, row: &str, word: &str, rest: &str) {
    say(rt, row);
    match word {
        "merge" => print_merged(rt, rest),
        "chunks" => print_chunks(rt, rest),
        _ => print_real(rt, rest),
    }
}

/// Prints a row, and on the same line what its call gives.
fn print_call(rt: &HostRuntime, row: &str, word: &str, rest: &str) {
    put(rt, row);
    put(rt, ": ");
    match word {
        "shelf" | "files" => print_verdict(rt, word == "files", rest),
        "loads" | "checks" => print_asked(rt, word == "loads", rest),
        "carried" => print_carried(rt, rest),
        "large" => print_large(rt, rest),
        _ => say(rt, "no call"),
    }
}

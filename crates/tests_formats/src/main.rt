//! Calls the crates of texts, formats and indexes, and prints what they give. A line of standard input is one call: the name of its
//! table, and then what the table's module says. One that begins with `= ` is a heading. What is to be printed comes from the
//! specifications of ULIDs, RFC 3339 and RFC 3720 and from a Prometheus server (2.42), and else was worked out by hand.
#![tactic(auto)]

mod basics;
mod indexes;
mod labels;
mod metas;
mod says;
mod scripts;
mod texts;
mod xor;

use crate::says::{cut, put, say};
use std::io;

fn main(rt: HostRuntime) -> io::Result<()> {
    let mut index = Vec::new(rt.alloc());
    for row in rt.lines(rt.alloc()) {
        do_row(&rt, &mut index, row?.as_str());
    }
    Ok(())
}

/// Prints a row, and what its call gives. Those of indexes speak of the one at hand.
fn do_row(rt: &HostRuntime, index: &mut Vec<u8>, row: &str) {
    let (table, call) = cut(row);
    match table {
        "=" => say(rt, row),
        "indexes" => indexes::do_row(rt, index, call),
        _ => {
            put(rt, row);
            put(rt, " -> ");
            let (word, text) = cut(call);
            match table {
                "base" => basics::print_call(rt, word, text),
                "labels" => labels::print_call(rt, word, text),
                "metas" => metas::print_call(rt, word, text),
                "scripts" => scripts::print_call(rt, call),
                "xor" => xor::print_call(rt, word, text),
                _ => say(rt, "no table"),
            }
        }
    }
}

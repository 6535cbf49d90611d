//! Reads records and writes them again. A line of standard input is one row, and one that begins with `= ` is a heading, which is
//! printed as it is. What is to be printed was told by a reader of records in Python, apart from this code.
#![tactic(auto)]

mod rows;

use crate::rows::do_row;
use std::io;

fn main(rt: HostRuntime) -> io::Result<()> {
    for row in rt.lines(rt.alloc()) {
        do_row(&rt, row?.as_str());
    }
    Ok(())
}

//! Uploads, syncs, cleanings, compactions and gateways' calls over a world or by replies that are written out, operations on a
//! world, what a bucket in memory opens, plans of blocks, filters of a view, and what a query asks and gathers. What is to be
//! printed was worked out by hand, made by another program, or comes from a Prometheus server (2.42).

#![tactic(auto)]

mod calls;
mod filters;
mod names;
mod ops;
mod planning;
mod played;
mod replies;
mod runs;
mod says;
mod setting;
mod streams;
mod told;
mod upload;

use crate::calls::print_calls;
use crate::filters::{print_kept, print_split};
use crate::names::{Named, add_bytes, add_text};
use crate::planning::{print_asks, print_gathered, print_groups, print_plan};
use crate::runs::print_run;
use crate::says::{cut, put, say};
use crate::setting::print_opened;
use crate::streams::{print_shelf, print_sink, print_site, print_source};
use std::io;

/// Each line of standard input is one question, in the notation that its head explains. One that begins with `= ` is a heading, and
/// one that gives bytes a name prints nothing. The long list of plans was made by another program, the objects of blocks by a server.
fn main(rt: HostRuntime) -> io::Result<()> {
    let mut objects = Vec::new(rt.alloc());
    for row in rt.lines(rt.alloc()) {
        do_row(&rt, &mut objects, row?.as_str());
    }
    drop(objects);
    Ok(())
}

fn do_row(rt: &HostRuntime, objects: &mut Vec<Named>, row: &str) {
    let (word, text) = cut(row);
    match word {
        "bytes" => add_bytes(objects, text),
        "text" => add_text(objects, text),
        "=" => say(rt, row),
        _ => {
            put(rt, row);
            put(rt, " ->");
            print_row(rt, objects.as_slice(), word, text);
        }
    }
}

fn print_row(rt: &HostRuntime, objects: &[Named], word: &str, text: &str) {
    match word {
        "run" => print_run(rt, objects, text),
        "calls" => print_calls(rt, objects, text),
        "open" => print_opened(rt, text),
        "split" => print_split(rt, objects, text),
        "groups" => print_groups(rt, objects, text),
        "young" | "marked" | "expiring" | "within" => print_kept(rt, objects, word, text),
        "asks" => print_asks(rt, text),
        "gather" => print_gathered(rt, text),
        "site" => print_site(rt, text),
        "shelf" => print_shelf(rt, text),
        "source" => print_source(rt, text),
        "sink" => print_sink(rt, text),
        _ => print_plan(rt, word, text),
    }
}

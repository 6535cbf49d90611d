//! Passes and workers that act on one world from threads of their own, and scripts whose workers do so. A row names a case and how
//! many times it is tried; what is printed is how many times it came out as it has to. `script TIMES / LINE / LINE ..` is a script
//! that is run by one thread, and then so many times with threads; its report was worked out apart from this program. `counted LINE / LINE ..`
//! prints what such runs told their gates.

mod counts;
mod gates;
mod job;
mod met;
mod passes;
mod phases;
mod replays;
mod scripts;
mod shares;
mod worlds;

use crate::says::say;
use crate::threads::counts::print_counted;
use crate::threads::passes::passes_share_a_journal;
use crate::threads::phases::{
    a_fault_stops_no_other, neighbours_meet, two_are_watched, workers_share_a_journal,
};
use crate::threads::replays::{
    Stream, a_fault_stops_one_upload, a_large_answer_is_told, fails_in_turn, uploads_meet,
};
use crate::threads::scripts::print_script;
use crate::threads::shares::places_meet;
use phase_runner::Open;
use std::alloc::Global;
use std::sync::Wait;
use std::thread::Threads;

/// Does what a row of threads says, and prints what came of it.
pub(crate) fn print_threads<R: Threads + Wait + Sync>(
    threads: &R,
    rt: &HostRuntime,
    row: &str,
    name: &str,
    rest: &str,
) {
    if name == "script" {
        say(rt, row);
        return print_script(threads, rt, rest);
    }
    if name == "counted" {
        say(rt, row);
        return print_counted(threads, rt, rest);
    }
    let times: u32 = rest.parse().unwrap_or(0);
    let mut good = 0u32;
    for _ in 0..times {
        if is_good(threads, rt.alloc(), name) {
            good = good.saturating_add(1);
        }
    }
    let _ = println!(rt; "{name}: {good} of {rest}");
}

/// Whether a case comes out as it has to.
fn is_good<R: Threads + Wait + Sync>(rt: &R, alloc: Global, name: &str) -> bool {
    match name {
        "passes" => passes_share_a_journal(rt, alloc),
        "workers" => workers_share_a_journal(rt, alloc, &Open, 2, 100),
        "meeting" => two_are_watched(rt, alloc, true, 5),
        "five" => neighbours_meet(rt, alloc),
        "numbers" => two_are_watched(rt, alloc, false, 20),
        "places" => places_meet(rt),
        "fault" => a_fault_stops_no_other(rt, alloc),
        "uploads" => uploads_meet(rt, alloc),
        "large" => a_large_answer_is_told(rt, alloc),
        "failing_call" => a_fault_stops_one_upload(rt, alloc),
        "source" => fails_in_turn(rt, alloc, Stream::Source),
        "sink" => fails_in_turn(rt, alloc, Stream::Sink),
        _ => false,
    }
}

//! Scripts of which every run says the same, however the workers of a phase interleave.
use crate::runs::print_written;
use crate::setting::CALM;
use crate::tool::{Ended, end_over_memory};
use bucket_core::FileList;
use phase_runner::Open;
use std::alloc::Global;
use std::sync::Wait;
use std::thread::Threads;

/// The bucket and the shelf of each run.
const PLACES: &str = "memory none";

/// Runs the script of a row by one thread, and prints its status, its report, and how many of so many runs with threads end so.
pub(crate) fn print_script<R: Threads + Wait + Sync>(threads: &R, rt: &HostRuntime, row: &str) {
    let alloc = rt.alloc();
    let (times, lines) = row.split_once(" / ").unwrap_or((row, ""));
    let files = FileList::new(alloc);
    let ended = end_over_memory(
        threads,
        alloc,
        ("serial", PLACES),
        files,
        lines,
        &CALM,
        &Open,
    );
    let same = count_same(threads, alloc, lines, times.parse().unwrap_or(0), &ended);
    print_written(rt, ended.status, ended.written());
    drop(ended);
    let _ = println!(rt; "  so with threads: {same} of {times}");
}

/// How many of so many runs with threads end so.
fn count_same<R: Threads + Wait + Sync>(
    threads: &R,
    alloc: Global,
    lines: &str,
    times: u32,
    ended: &Ended,
) -> u32 {
    let mut same = 0u32;
    for _ in 0..times {
        let files = FileList::new(alloc);
        let again = end_over_memory(
            threads,
            alloc,
            ("replay", PLACES),
            files,
            lines,
            &CALM,
            &Open,
        );
        if again.status == ended.status && again.written() == ended.written() {
            same = same.saturating_add(1);
        }
        drop(again);
    }
    same
}

//! What a gate is told of a run: the same by one thread and with threads.
use crate::setting::CALM;
use crate::tool::{Ended, end_over_memory};
use bucket_core::FileList;
use phase_runner::Gate;
use std::sync::Wait;
use std::sync::atomic::{AtomicU64, Ordering};
use std::thread::Threads;

/// Counts what it is told.
#[derive(Drop)]
struct Counts {
    phase: AtomicU64,
    phases: AtomicU64,
    operations: AtomicU64,
    bytes: AtomicU64,
    ends: AtomicU64,
}

impl Counts {
    fn new() -> Counts {
        Counts {
            phase: AtomicU64::new(0),
            phases: AtomicU64::new(0),
            operations: AtomicU64::new(0),
            bytes: AtomicU64::new(0),
            ends: AtomicU64::new(0),
        }
    }
}

impl Gate for Counts {
    fn before(&self, _seat: u32, _number: u64) {}

    fn begins(&self, place: usize, count: usize) {
        if self.phase.load(Ordering::SeqCst) == place as u64 {
            self.phase.fetch_add(1, Ordering::SeqCst);
        }
        self.phases.store(count as u64, Ordering::SeqCst);
    }

    fn moved(&self, bytes: u64) {
        self.operations.fetch_add(1, Ordering::SeqCst);
        self.bytes.fetch_add(bytes, Ordering::SeqCst);
    }

    fn ends(&self) {
        self.ends.fetch_add(1, Ordering::SeqCst);
    }
}

/// Runs the script of a row by one thread, and then with threads, and prints what either run told its gate.
pub(crate) fn print_counted<R: Threads + Wait + Sync>(threads: &R, rt: &HostRuntime, lines: &str) {
    print_counts(threads, rt, "serial", lines);
    print_counts(threads, rt, "replay", lines);
}

/// Prints the phases that were begun in their order, of how many; the operations, beside how many the journal has; the bytes; and
/// how often the run was said to end.
fn print_counts<R: Threads + Wait + Sync>(threads: &R, rt: &HostRuntime, call: &str, lines: &str) {
    let alloc = rt.alloc();
    let gate = Counts::new();
    let words = (call, "memory none");
    let files = FileList::new(alloc);
    let ended = end_over_memory(threads, alloc, words, files, lines, &CALM, &gate);
    let phase = gate.phase.load(Ordering::SeqCst);
    let phases = gate.phases.load(Ordering::SeqCst);
    let operations = gate.operations.load(Ordering::SeqCst);
    let bytes = gate.bytes.load(Ordering::SeqCst);
    let ends = gate.ends.load(Ordering::SeqCst);
    let entries = entry_count(&ended);
    drop(ended);
    let _ = println!(rt;
        "  {call}: phase {phase} of {phases}, {operations} of {entries} operations, {bytes} bytes, {ends} end"
    );
}

fn entry_count(ended: &Ended) -> u64 {
    match &ended.journal {
        Some(journal) => journal.len(),
        None => 0,
    }
}

//! How far a run is, on standard error: where that is a terminal, once the run takes longer than two seconds. A failure to say it
//! changes nothing.

ghost use Rattle.std.specs.Prelude.{◌≡◌, ◌++◌, IfOk, OnOk};
ghost use Rattle.base.specs.Decimal.{decimal_text};
ghost use Rattle.tosraem.specs.Progress.{progress_words};

use base::{NoMemory, put_unsigned};
use phase_runner::Gate;
use std::alloc::Global;
use std::io::{IsTerminal, Write};
use std::rt::Clock;
use std::sync::atomic::{AtomicBool, AtomicU64, Ordering};
use std::time::Duration;

/// So many milliseconds of a run pass before anything is said of it.
const FIRST_MS: u64 = 2_000;

/// And so many between one line and the next.
const PAUSE_MS: u64 = 200;

/// It covers any line: a script has less than 14 million phases, and a journal about a million operations and a gibibyte.
const BLANKS: &str = "                                                                \r";

/// Counts what a run does, and shows it on standard error from time to time.
#[derive(Drop)]
pub(crate) struct Progress<'a> {
    rt: &'a HostRuntime,
    /// When the run began by the system's clock. Nothing is shown where that is not known, or where standard error is no terminal.
    began: Option<Duration>,
    /// A line is due so many milliseconds after the beginning.
    due_ms: AtomicU64,
    /// Whether a line stands there.
    is_shown: AtomicBool,
    phase: AtomicU64,
    phases: AtomicU64,
    operations: AtomicU64,
    bytes: AtomicU64,
}

impl<'a> Progress<'a> {
    /// Nothing was done yet.
    pub(crate) fn new(rt: &'a HostRuntime) -> Progress<'a> {
        let began = if rt.stderr().is_terminal() {
            rt.monotonic().ok()
        } else {
            None
        };
        Progress {
            rt,
            began,
            due_ms: AtomicU64::new(FIRST_MS),
            is_shown: AtomicBool::new(false),
            phase: AtomicU64::new(0),
            phases: AtomicU64::new(0),
            operations: AtomicU64::new(0),
            bytes: AtomicU64::new(0),
        }
    }

    /// Shows how far the run is, if that is due. Where several threads find that it is, one of them does.
    fn show_if_due(&self, began: Duration) {
        let Some(passed) = self.passed_since(began) else {
            return;
        };
        let due = self.due_ms.load(Ordering::SeqCst);
        if passed < due {
            return;
        }
        let next = passed.saturating_add(PAUSE_MS);
        if self
            .due_ms
            .compare_exchange(due, next, Ordering::SeqCst, Ordering::SeqCst)
            .is_ok()
        {
            self.show();
        }
    }

    /// How many milliseconds the run takes so far.
    fn passed_since(&self, began: Duration) -> Option<u64> {
        let passed = self.rt.monotonic().ok()?.checked_sub(began)?;
        u64::try_from(passed.as_millis()).ok()
    }

    fn show(&self) {
        let line = progress_line(
            self.rt.alloc(),
            self.phase.load(Ordering::SeqCst),
            self.phases.load(Ordering::SeqCst),
            self.operations.load(Ordering::SeqCst),
            self.bytes.load(Ordering::SeqCst),
        );
        if let Ok(line) = line {
            self.is_shown.store(true, Ordering::SeqCst);
            self.put(&line);
        }
    }

    fn put(&self, text: &[u8]) {
        let _ = self.rt.stderr().write_all(text);
    }
}

impl<'a> Gate for Progress<'a> {
    fn before(&self, _seat: u32, _number: u64) {}

    fn begins(&self, place: usize, count: usize) {
        let number = (place as u64).saturating_add(1);
        self.phase.store(number, Ordering::SeqCst);
        self.phases.store(count as u64, Ordering::SeqCst);
    }

    fn moved(&self, bytes: u64) {
        let Some(began) = self.began else {
            return;
        };
        self.operations.fetch_add(1, Ordering::SeqCst);
        self.bytes.fetch_add(bytes, Ordering::SeqCst);
        self.show_if_due(began);
    }

    /// Takes the line away, if one stands there.
    fn ends(&self) {
        if self.is_shown.swap(false, Ordering::SeqCst) {
            self.put(BLANKS.as_bytes());
        }
    }
}

/// What is shown of a run. The next line begins at the same place.
#[tactic(auto, unfolding(crate::specs::Progress::progress_words))]
fn progress_line(
    alloc: Global,
    phase: u64,
    phases: u64,
    operations: u64,
    bytes: u64,
) -> Result<Vec<u8>, NoMemory>
    ensures { IfOk result
        (λ text. text.items ≡ progress_words phase phases operations bytes) }
{
    let mut out = Vec::new(alloc);
    put_number(&mut out, "phase ", phase)?;
    put_number(&mut out, " of ", phases)?;
    put_number(&mut out, ", ", operations)?;
    put_number(&mut out, " operations, ", bytes)?;
    out.extend_from_slice(" bytes\r".as_bytes())?;
    Ok(out)
}

/// Appends words and a number behind them.
fn put_number(out: &mut Vec<u8>, words: &str, number: u64) -> Result<(), NoMemory>
    ensures { OnOk result
        (out.new.items ≡ out.old.items ++ (words.now ++ decimal_text number)) }
{
    out.extend_from_slice(words.as_bytes())?;
    put_unsigned(out, number)
}

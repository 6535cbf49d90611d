//! A gate by which two workers prove that they run beside each other: before its operation number 2 each waits until
//! the other has come to its own. If they ran one behind the other, the first would wait in vain.

use phase_runner::Gate;
use std::hint;
use std::sync::atomic::{AtomicBool, AtomicU64, Ordering};

/// How many rounds a worker waits for the other.
const ROUNDS: u64 = 100_000_000;

/// The operation before which workers wait for each other.
const MEETING: u64 = 2;

/// Counts how often it was asked for a seat and for the next one, and tells whether it was given that number each time. One at which
/// workers meet holds each of these up before its operation number 2 until the other has come to its own.
#[derive(Drop)]
pub struct Watch {
    meets: bool,
    seat: u32,
    last: u32,
    first: AtomicU64,
    second: AtomicU64,
    first_came: AtomicBool,
    second_came: AtomicBool,
    went_wrong: AtomicBool,
    gave_up: AtomicBool,
}

impl Watch {
    /// It watches a seat and the next one, where there are none behind the last.
    pub fn new(meets: bool, seat: u32, last: u32) -> Watch {
        Watch {
            meets,
            seat,
            last,
            first: AtomicU64::new(0),
            second: AtomicU64::new(0),
            first_came: AtomicBool::new(false),
            second_came: AtomicBool::new(false),
            went_wrong: AtomicBool::new(false),
            gave_up: AtomicBool::new(false),
        }
    }

    /// Whether both came to their operation number 2, and none waited in vain.
    pub fn saw_both(&self) -> bool {
        self.first_came.load(Ordering::SeqCst)
            && self.second_came.load(Ordering::SeqCst)
            && !self.gave_up.load(Ordering::SeqCst)
    }

    /// Whether it was asked so often for each seat, with the numbers in their order, and for none behind the last.
    pub fn has_counted(&self, count: u64) -> bool {
        self.first.load(Ordering::SeqCst) == count
            && self.second.load(Ordering::SeqCst) == count
            && !self.went_wrong.load(Ordering::SeqCst)
    }
}

impl Gate for Watch {
    fn before(&self, seat: u32, number: u64) {
        if seat > self.last {
            return self.went_wrong.store(true, Ordering::SeqCst);
        }
        let (asked, came, other_came) = if seat == self.seat {
            (&self.first, &self.first_came, &self.second_came)
        } else if seat == self.seat.saturating_add(1) {
            (&self.second, &self.second_came, &self.first_came)
        } else {
            return;
        };
        if asked.fetch_add(1, Ordering::SeqCst) != number {
            self.went_wrong.store(true, Ordering::SeqCst);
        }
        if number != MEETING {
            return;
        }
        came.store(true, Ordering::SeqCst);
        if !self.meets {
            return;
        }
        for _ in 0..ROUNDS {
            if other_came.load(Ordering::SeqCst) {
                return;
            }
            hint::spin_loop();
        }
        self.gave_up.store(true, Ordering::SeqCst);
    }
}

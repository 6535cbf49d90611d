use phase_runner::for_each_beside;
use std::hint;
use std::sync::atomic::{AtomicBool, Ordering};
use std::thread::Threads;

/// How many rounds a place waits for its neighbour.
const ROUNDS: u64 = 100_000_000;

/// Two threads do four places, of which the first two wait for each other, and then the last two. So all come to their ends only
/// where neighbours are done by different threads.
pub fn places_meet<R: Threads + Sync>(rt: &R) -> bool {
    let came = [
        AtomicBool::new(false),
        AtomicBool::new(false),
        AtomicBool::new(false),
        AtomicBool::new(false),
    ];
    let mut met = [false; 4];
    for_each_beside(
        rt,
        met.as_mut_slice(),
        2,
        &|place, met| { *met = meets(&came, place) },
    );
    met == [true; 4]
}

/// Whether the neighbour of a place has come too, before this one has waited in vain.
fn meets(came: &[AtomicBool; 4], place: usize) -> bool {
    let neighbour = if place % 2 == 0 {
        place.saturating_add(1)
    } else {
        place.saturating_sub(1)
    };
    let (Some(own), Some(other)) = (came.get(place), came.get(neighbour)) else {
        return false;
    };
    own.store(true, Ordering::SeqCst);
    for _ in 0..ROUNDS {
        if other.load(Ordering::SeqCst) {
            return true;
        }
        hint::spin_loop();
    }
    false
}

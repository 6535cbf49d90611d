//! Work on the places of a list, dealt out in turn to threads that the caller makes one after another.
//!
//! Where new threads make others, these mostly begin on their makers' processors, and wait there while another processor is idle.
ghost use Rattle.std.specs.Prelude.{◌≡◌, ℕ, ◌+◌, ◌*◌, ◌-◌, ◌^◌, ◌<◌, ◌≤◌, length};
ghost use Rattle.std.specs.Fork.{AcceptsAt, ChangesAt, AcceptsEach, ChangesEach};
ghost use Rattle.phase_runner.specs.Shares.{AcceptsStride, ChangesStride, AcceptsDealt, ChangesDealt};
ghost use denote.Param.Send.{IsSync, IsSend};

use crate::dealing::{put_back, take_first};
use std::thread;
use std::thread::{Threads, join_mut};

/// Calls f(i, &mut s[i]) at each place, in at most so many threads, and in no more than there are places. The places are dealt out
/// in turn, so that neighbours are done by different threads, where there are several. The caller makes all other threads, and does
/// the last share.
pub fn for_each_beside<R: Threads + Sync, T: Send, F: Fn(usize, &mut T) + Sync>(
    rt: &R,
    s: &mut [T],
    threads: usize,
    f: &F,
)
    requires threads { 0 < threads }
    requires accepts { AcceptsEach F.Fn f.now s.old }
    ensures { ChangesEach F.Fn f.now s.old s.new }
{
    shares_from(rt, f, 0, threads.min(s.len().max(1)), s);
}

/// The same for the places of the takers from `first` on. So many takers are dealt to in each round.
#[cycle(shares)]
fn shares_from<R: Threads + Sync, T: Send, F: Fn(usize, &mut T) + Sync>(
    rt: &R,
    f: &F,
    first: usize,
    takers: usize,
    s: &mut [T],
)
    requires takers { first < takers }
    requires accepts { AcceptsDealt F.Fn f.now takers first s.old }
    ensures { ChangesDealt F.Fn f.now takers first s.old s.new }
{
    let left = takers - first;
    if left == 1 {
        in_turn(s, first, takers, f);
        return;
    }
    let count = take_first(s, left);
    let (own, rest) = s.split_at_mut(count);
    both_shares(rt, f, first, takers, own, rest);
    put_back(s, left, count);
}

/// Does the places of one taker in a new thread, and those of the others as `shares_from` does.
#[cycle(shares)]
fn both_shares<R: Threads + Sync, T: Send, F: Fn(usize, &mut T) + Sync>(
    rt: &R,
    f: &F,
    first: usize,
    takers: usize,
    own: &mut [T],
    rest: &mut [T],
)
    requires takers { first + 1 < takers }
    requires own { AcceptsStride F.Fn f.now first takers own.old }
    requires rest { AcceptsDealt F.Fn f.now takers (first + 1) rest.old }
    ensures own { ChangesStride F.Fn f.now first takers own.old own.new }
    ensures rest { ChangesDealt F.Fn f.now takers (first + 1) rest.old rest.new }
{
    let mut front = ||
        requires { IsSync F.row × IsSend T.row × AcceptsStride F.Fn f.now first takers own.now }
        ensures { ChangesStride F.Fn f.entry.now first takers own.entry.now own.exit.now }
    { in_turn(own, first, takers, f) };
    let mut back = ||
        requires { IsSync R.row × IsSync F.row × IsSend T.row × (first + 1 < takers)
            × (takers < 2 ^ 64) × AcceptsDealt F.Fn f.now takers (first + 1) rest.now }
        ensures { ChangesDealt F.Fn f.entry.now takers (first + 1) rest.entry.now rest.exit.now }
    { shares_from(rt, f, first + 1, takers, rest) };
    join_mut(rt, &mut front, &mut back);
}

/// Calls f at one place after another, of which each is by so many greater than the one before.
fn in_turn<T, F: Fn(usize, &mut T)>(s: &mut [T], first: usize, step: usize, f: &F)
    requires { AcceptsStride F.Fn f.now first step s.old }
    ensures { ChangesStride F.Fn f.now first step s.old s.new }
{
    for k in 0..s.len() {
        at_one(f, first + k * step, &mut s[k]);
    }
}

/// Calls f at one place.
fn at_one<T, F: Fn(usize, &mut T)>(f: &F, i: usize, it: &mut T)
    requires { AcceptsAt F.Fn f.now i it.old }
    ensures { ChangesAt F.Fn f.now i it.old it.new }
{
    f(i, it);
}

/// How many processors the process may use; one, where the system does not tell.
pub fn processors<R: Threads>(rt: &R) -> usize
    ensures { 0 < result }
{
    match thread::available_parallelism(rt) {
        Ok(count) => count.get(),
        Err(_) => 1,
    }
}

//! A list whose places are dealt out in turn, one round after another: those of the first taker come to the front, and back again.
ghost use Rattle.std.specs.Prelude.{◌≡◌, ℕ, ◌+◌, ◌-◌, ◌<◌, ◌≤◌, ◌++◌, List, take, drop, length};
ghost use Rattle.phase_runner.specs.Dealing.{HasRounds, firsts, rest_of};

/// Moves the first place of each round to the front, and tells how many these are. A round has as many places as there are takers,
/// and the last one may have fewer. All others stay in their order behind them.
pub(crate) fn take_first<T>(s: &mut [T], takers: usize) -> usize
    requires { 0 < takers }
    ensures within { result ≤ length s.new }
    ensures firsts { take result s.new ≡ firsts (takers - 1) 0 s.old }
    ensures rest { drop result s.new ≡ rest_of (takers - 1) 0 s.old }
{
    if s.is_empty() {
        return 0;
    }
    let others = takers - 1;
    let mut before = (s.len() - 1) / takers;
    let mut count = 1;
    while before > 0 {
        before -= 1;
        swap_blocks(s, before * takers + 1, others, count);
        count += 1;
    }
    count
}

/// Moves so many places from the front back to the first place of each round.
pub(crate) fn put_back<T>(s: &mut [T], takers: usize, count: usize)
    requires takers { 0 < takers }
    requires rounds { HasRounds (takers - 1) (length s.old) count }
    ensures firsts { firsts (takers - 1) 0 s.new ≡ take count s.old }
    ensures rest { rest_of (takers - 1) 0 s.new ≡ drop count s.old }
{
    let others = takers - 1;
    let mut at = 0;
    let mut left = count;
    while left > 1 {
        left -= 1;
        swap_blocks(s, at + 1, left, others);
        at += takers;
    }
}

/// Exchanges two neighbouring blocks, the first of which begins at a place.
fn swap_blocks<T>(s: &mut [T], at: usize, first: usize, second: usize)
    requires { at + first + second ≤ length s.old }
    ensures { (before one other behind : List T) → s.old ≡ before ++ (one ++ (other ++ behind))
        → length before ≡ at → length one ≡ first → length other ≡ second
        → s.new ≡ before ++ (other ++ (one ++ behind)) }
{
    s[at..at + first + second].rotate_left(first);
}

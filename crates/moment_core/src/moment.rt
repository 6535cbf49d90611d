//! The times of a run's clock, in milliseconds since 1970. A timestamp with a part below a millisecond is refused, as
//! no moment is equal to it.

ghost use Rattle.std.specs.Prelude.{◌≡◌, ◌↔◌, ℕ, IfOk, IfErr, IsErr, IsOkAnd};
ghost use Rattle.std.specs.Option.{option_map};
ghost use Rattle.std.specs.Result.{result_ok};
ghost use Rattle.jiff.specs.Words.{parse_timestamp};
ghost use Rattle.moment_core.specs.MomentText as words;

use crate::MomentRefusal;
use base::{NoMemory, TryCopy, short_number};
use jiff::Timestamp;
use std::alloc::Global;

/// How many digits milliseconds have at most.
const MOST_DIGITS: usize = 15;

/// A text or a clock line names a moment below this.
const LIMIT: u64 = 1 << 47;

/// A millisecond in nanoseconds.
const MILLISECOND: u128 = 1_000_000;

/// A moment in milliseconds since 1970.
#[derive(Clone, Copy, Debug, PartialEq, Eq, PartialOrd, Ord)]
pub struct Moment {
    pub ms: u64,
}

impl Moment {
    ghost use Rattle.moment_core.specs.MomentText.{IsMomentText, moment_of};

    /// Reads milliseconds of 1 to 15 decimal digits, or else a timestamp that `jiff` reads, such as
    /// `2024-10-04T00:00:00Z`. It takes no memory today, and so never answers `NoMemory`.
    pub fn read(_alloc: Global, text: &str) -> Result<Moment, MomentRefusal>
        ensures gives { option_map (λ moment. moment.ms) (result_ok result) ≡ moment_of text.now }
        ensures refused { IfErr result (λ refusal. refusal ≡ MomentRefusal.BadMoment) }
        ensures found { IfOk result (λ moment. IsMomentText text.now moment.ms) }
        ensures only { (ms : ℕ) → IsMomentText text.now ms
            → IsOkAnd result (λ moment. moment.ms ≡ ms) }
        ensures none { IsErr result ↔ ((ms : ℕ) → ¬ IsMomentText text.now ms) }
    {
        match read_ms(text) {
            Some(ms) => Ok(Moment { ms }),
            None => Err(MomentRefusal::BadMoment),
        }
    }
}

impl TryCopy for Moment {
    fn copy(&self) -> Result<Self, NoMemory>
        ensures { result ≡ Ok self.now }
    {
        Ok(*self)
    }
}

#[tactic(auto, unfolding(crate::specs::MomentText::moment_of))]
fn read_ms(text: &str) -> Option<u64>
    ensures { result ≡ words.moment_of text.now }
{
    match short_number(text.as_bytes(), MOST_DIGITS) {
        Some(ms) => moment_within(ms),
        None => read_timestamp(text),
    }
}

fn moment_within(ms: u64) -> Option<u64>
    ensures { result ≡ words.moment_within ms }
{
    if ms < LIMIT { Some(ms) } else { None }
}

fn read_timestamp(text: &str) -> Option<u64>
    ensures { result ≡ words.moment_of_timestamp (parse_timestamp text.now) }
{
    let timestamp: Timestamp = text.parse().ok()?;
    moment_at(timestamp.as_nanosecond())
}

/// The milliseconds of a timestamp that has no smaller part and is not before 1970.
fn moment_at(nanoseconds: i128) -> Option<u64>
    ensures { result ≡ words.moment_at nanoseconds }
{
    let nanoseconds = u128::try_from(nanoseconds).ok()?;
    if nanoseconds % MILLISECOND != 0 {
        return None;
    }
    moment_within(u64::try_from(nanoseconds / MILLISECOND).ok()?)
}

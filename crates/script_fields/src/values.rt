//! The numbers, times, spans and ULIDs that stand in fields.

ghost use Rattle.std.specs.Prelude.{◌≡◌};
ghost use Rattle.script_fields.specs.Values.{time_field, is_time, page_limit_field, stop_count, span_field, tick_field, ulid_field, is_reserved};

use crate::LineCause;
use base::{read_signed, read_unsigned};
use label_sets::TIME_LIMIT;
use moment_core::Span;
use ulid_core::{LEAST_RESERVED, Ulid};

/// How many names a page has at most.
const MOST_NAMES: u64 = 10_000;

/// The greatest number of operations after which a task may stop.
const LATEST_STOP: u64 = 1_000_000;

/// A day, in milliseconds.
const LONGEST_TICK: u64 = 86_400_000;

/// A time in milliseconds, from -2^62 to 2^62.
#[tactic(auto, unfolding(crate::specs::Values::time_field))]
pub fn time(field: &str) -> Result<i64, LineCause>
    ensures { result ≡ time_field field.now }
{
    match read_signed(field) {
        Ok(time) if is_time(time) => Ok(time),
        _ => Err(LineCause::BadNumber),
    }
}

/// Whether these milliseconds are a time that a script may name, from -2^62 to 2^62.
pub fn is_time(time: i64) -> bool
    ensures { result ≡ is_time time }
{
    -TIME_LIMIT <= time && time <= TIME_LIMIT
}

/// A page limit, from 1 to 10,000.
#[tactic(auto, unfolding(crate::specs::Values::page_limit_field))]
pub fn page_limit(field: &str) -> Result<u32, LineCause>
    ensures { result ≡ page_limit_field field.now }
{
    match read_unsigned(field) {
        Ok(number) if 1 <= number && number <= MOST_NAMES => Ok(number as u32),
        _ => Err(LineCause::BadNumber),
    }
}

/// How many operations a task makes before it stops, from 1 to 1,000,000.
#[tactic(auto, unfolding(crate::specs::Values::stop_count))]
pub fn stop_count(field: &str) -> Result<u32, LineCause>
    ensures { result ≡ stop_count field.now }
{
    match read_unsigned(field) {
        Ok(number) if 1 <= number && number <= LATEST_STOP => Ok(number as u32),
        _ => Err(LineCause::BadNumber),
    }
}

/// A span of time, as `90m` or `5ms`.
#[tactic(auto, unfolding(crate::specs::Values::span_field))]
pub fn span(field: &str) -> Result<Span, LineCause>
    ensures { result ≡ span_field field.now }
{
    Span::read(field).map_err(|_| LineCause::BadSpanText)
}

/// A span of at most a day.
#[tactic(auto, unfolding(crate::specs::Values::tick_field))]
pub fn tick(field: &str) -> Result<Span, LineCause>
    ensures { result ≡ tick_field field.now }
{
    let tick = span(field)?;
    if tick.ms <= LONGEST_TICK {
        Ok(tick)
    } else {
        Err(LineCause::BadSpanText)
    }
}

/// A ULID of 26 characters.
#[tactic(auto, unfolding(crate::specs::Values::ulid_field))]
pub fn ulid(field: &str) -> Result<Ulid, LineCause>
    ensures { result ≡ ulid_field field.now }
{
    Ulid::read(field).map_err(|_| LineCause::BadUlidText)
}

/// Whether a ULID is one of the 2^20 of its millisecond that compacted blocks take.
pub fn is_reserved(ulid: Ulid) -> bool
    ensures { result ≡ is_reserved ulid }
{
    ulid.entropy() >= LEAST_RESERVED
}

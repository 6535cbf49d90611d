//! Moments as dates.

ghost use Rattle.std.specs.Prelude.{◌≡◌, ◌⊎◌, IfOk, IfSome, None};
ghost use Rattle.jiff.specs.Words.{IsTimestampNanos, civil_nanos};
ghost use Rattle.base.specs.Decimal.{decimal_text};
ghost use Rattle.run_messages.specs.Dates.{IsDate, IsDateOf, date_text, nanoseconds};

use base::{NoMemory, put_unsigned};
use jiff::Timestamp;
use jiff::civil::DateTime;
use jiff::tz::Offset;
use moment_core::Moment;
use std::alloc::Global;

/// A millisecond in nanoseconds.
const MILLISECOND: i128 = 1_000_000;

/// The date of a moment in universal time, or its milliseconds where the calendar has no date so late.
pub(crate) fn date_of(alloc: Global, moment: Moment) -> Result<Vec<u8>, NoMemory>
    ensures { IfOk result (λ text. IsDateOf text.items moment.ms) }
{
    match timestamp_of(moment.ms) {
        Some(timestamp) => date_text(alloc, timestamp),
        None => milliseconds_text(alloc, moment.ms),
    }
}

/// The moment as an instant, where it is one of those that have dates.
fn timestamp_of(ms: u64) -> Option<Timestamp>
    ensures some { IfSome result (λ timestamp. timestamp.nanosecond ≡ nanoseconds ms) }
    ensures none { result ≡ None → IsTimestampNanos (nanoseconds ms) → ⊥ }
{
    Timestamp::from_nanosecond(i128::from(ms) * MILLISECOND).ok()
}

fn date_text(alloc: Global, timestamp: Timestamp) -> Result<Vec<u8>, NoMemory>
    ensures { IfOk result (λ text. IsDate text.items timestamp.nanosecond) }
{
    shown(alloc, utc_date(timestamp))
}

fn utc_date(timestamp: Timestamp) -> DateTime
    ensures { civil_nanos result ≡ timestamp.nanosecond }
{
    Offset::UTC.to_datetime(timestamp)
}

/// The text of a date in universal time.
fn shown(alloc: Global, date: DateTime) -> Result<Vec<u8>, NoMemory>
    ensures { IfOk result (λ text. text.items ≡ date_text date) }
{
    let text = format!(in alloc; "{date}Z")?;
    let mut out = Vec::new(alloc);
    out.extend_from_slice(text.as_bytes())?;
    Ok(out)
}

fn milliseconds_text(alloc: Global, ms: u64) -> Result<Vec<u8>, NoMemory>
    ensures { IfOk result (λ text. text.items ≡ decimal_text ms) }
{
    let mut out = Vec::new(alloc);
    put_unsigned(&mut out, ms)?;
    Ok(out)
}

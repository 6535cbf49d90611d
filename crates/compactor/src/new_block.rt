//! The names of new blocks.
ghost use Rattle.std.specs.Prelude.{◌≡◌, ◌<◌, ◌+◌, ◌%◌};
ghost use Rattle.ulid_core.specs.Reserved.{least_reserved, reserved_count};
ghost use Rattle.ulid_core.specs.Limits.{ulid_time_limit, entropy_count};
ghost use Rattle.compactor.specs.NewBlocks.{new_ulid as ulid_after};

use moment_core::Moment;
use ulid_core::{LEAST_RESERVED, RESERVED_COUNT, Ulid};

/// The last 20 bits of an entry's number.
fn last_bits(number: u64) -> u64
    ensures value { result ≡ number % reserved_count }
    ensures bound { result < reserved_count }
{
    number % RESERVED_COUNT
}

/// The bits behind a ULID's time, with these as the last ones.
fn bits_behind(last: u64) -> u128
    requires { last < reserved_count }
    ensures value { result ≡ least_reserved + last }
    ensures bound { result < entropy_count }
{
    LEAST_RESERVED + u128::from(last)
}

/// The ULID of a block whose upload follows an entry.
pub(crate) fn new_ulid(number: u64, moment: Moment) -> Ulid
    requires { moment.ms < ulid_time_limit }
    ensures { result ≡ ulid_after number moment }
{
    Ulid::from_parts(moment.ms, bits_behind(last_bits(number)))
}

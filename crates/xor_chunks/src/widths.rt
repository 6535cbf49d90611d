//! How many bits the parts of a sample take.

/// The first of the fields in which a change of a step may stand. The shortest that fits it is taken.
pub(crate) const NARROW_FIELD: u32 = 14;

/// The second of them.
pub(crate) const MIDDLE_FIELD: u32 = 17;

/// The third of them, behind which only one of 64 bits comes.
pub(crate) const WIDE_FIELD: u32 = 20;

/// A window's lead, as it is told.
pub(crate) const LEAD_FIELD: u32 = 5;

/// And its width.
pub(crate) const WIDTH_FIELD: u32 = 6;

/// What stands in front of a value's bits, at most: two bits that say what follows, and a window's lead and width.
pub(crate) const HEAD_LIMIT: u32 = 13;

/// What stands in front of a value's bits, at most, with a change in one of the first three fields and the bits that say in which.
pub(crate) const PEEKED: u32 = 37;

/// The zero bits that fill the last byte of data, at most.
pub(crate) const FILLING: u32 = 7;

/// The zero bits at the end of data as Prometheus stores it, at most: a byte of zeros may stand behind those that fill the last one.
pub(crate) const STORED_FILLING: u32 = 8;

//! The bytes of kinds of operations and replies.

/// What a record begins with: `THJOURN1`, as one number.
pub(crate) const MAGIC: u64 = 0x5448_4a4f_5552_4e31;

pub(crate) const CLOCK: u8 = 1;

pub(crate) const PUT: u8 = 2;

pub(crate) const GET: u8 = 3;

pub(crate) const GET_RANGE: u8 = 4;

pub(crate) const DELETE: u8 = 5;

pub(crate) const ROOT_PAGE: u8 = 6;

pub(crate) const BLOCK_PAGE: u8 = 7;

pub(crate) const CLOCKED: u8 = 1;

pub(crate) const STORED: u8 = 2;

pub(crate) const FOUND: u8 = 3;

pub(crate) const ABSENT: u8 = 4;

pub(crate) const DELETED: u8 = 5;

pub(crate) const NAMES: u8 = 6;

pub(crate) const FAILED: u8 = 7;

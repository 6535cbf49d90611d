use crate::CONTENTS_SIZE;

/// What an index begins with.
pub const MAGIC: [u8; 4] = [0xBA, 0xAA, 0xD7, 0];

/// The version, which stands behind the magic number.
pub const VERSION: u8 = 2;

/// The size of the header.
pub const HEADER_SIZE: usize = 5;

/// The size of the header and the table of contents: no index has fewer bytes.
pub const LEAST_SIZE: usize = HEADER_SIZE + CONTENTS_SIZE;

/// A series stands at so many times its number.
pub const SERIES_UNIT: u64 = 16;

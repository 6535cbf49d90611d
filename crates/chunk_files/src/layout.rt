//! The numbers of a segment file.
use wire_bytes::FILE_LIMIT;

/// What a segment begins with.
pub(crate) const MAGIC: u32 = 0x85BD_40DD;

pub(crate) const VERSION: u8 = 1;

/// The length of a segment's header, in which no chunk begins.
pub const HEADER_SIZE: u64 = 8;

/// How many bytes a chunk has beside its length and its data: its encoding, and the sum.
pub const FRAME_SIZE: usize = 5;

/// The greatest length of a segment.
pub const GREATEST: usize = FILE_LIMIT;

/// The encoding of XOR data; those of histograms come next.
pub(crate) const XOR: u8 = 1;

pub(crate) const HISTOGRAM: u8 = 2;

pub(crate) const FLOAT_HISTOGRAM: u8 = 3;

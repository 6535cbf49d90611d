//! Bytes and bits as the formats lay them out: fields, varints, checksums, words of bits, and blobs of bytes that are shared.
#![tactic(auto)]

mod bit_reader;
mod bit_writer;
mod blob;
mod crc;
mod crc_tables;
mod cursor;
mod files;
mod put;
mod refill;
mod taking;
mod varint;

pub use bit_reader::{BitReader, ShortBits};
pub use bit_writer::BitWriter;
pub use blob::{Blob, NumberList, range_in};
pub use crc::crc_of;
pub use cursor::Cursor;
pub use files::FILE_LIMIT;
pub use put::{put_bytes, put_u8, put_u16, put_u32, put_u64, put_uvarint, put_varint};
pub use varint::{WireRefusal, field_value};

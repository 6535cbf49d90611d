use crate::says::{say_hex, say_text};
use base::{put_signed, put_unsigned};
use ulid_core::Ulid;
use wire_bytes::{put_bytes, put_u8, put_u16, put_u32, put_u64, put_uvarint, put_varint};

/// Prints numbers, bytes and a ULID as they are written.
pub(crate) fn print_written(rt: &HostRuntime) {
    let mut out = Vec::new(rt.alloc());
    let _ = put_uvarint(&mut out, 300);
    let _ = put_varint(&mut out, -1);
    let _ = put_u32(&mut out, 0x85BD40DD);
    let _ = put_u8(&mut out, 7);
    let _ = put_u16(&mut out, 0x0102);
    let _ = put_u64(&mut out, 0x0102_0304_0506_0708);
    let _ = put_bytes(&mut out, b"hi");
    say_hex(rt, out.as_slice());
    out.clear();
    let _ = put_unsigned(&mut out, u64::MAX);
    let _ = put_signed(&mut out, i64::MIN);
    let _ = put_unsigned(&mut out, 0);
    let _ = put_u8(&mut out, b'\n');
    let _ = Ulid::from_parts(1_728_000_000_000, 1).put_text(&mut out);
    let _ = Ulid::from_parts(0, 10).put_text(&mut out);
    say_text(rt, out.as_slice());
}

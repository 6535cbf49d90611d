use crate::says::{put, say, say_hex, show, tell};
use wire_bytes::{Cursor, crc_of};

/// Prints what bytes are read as.
pub(crate) fn print_bytes(rt: &HostRuntime, kind: &str, text: &str) {
    let Ok(bytes) = hex::decode(rt.alloc(), text) else {
        return say(rt, "no bytes");
    };
    let bytes = bytes.as_slice();
    match kind {
        "sum" => say_hex(rt, &crc_of(bytes).to_be_bytes()),
        "uvarint" => show(rt, &Cursor::new(bytes).take_uvarint()),
        "varint" => show(rt, &Cursor::new(bytes).take_varint()),
        "fields" => print_fields(rt, bytes),
        _ => say(rt, "no row"),
    }
}

/// Prints fields that follow each other, and then what is left of the bytes.
fn print_fields(rt: &HostRuntime, bytes: &[u8]) {
    let mut cursor = Cursor::new(bytes);
    show(rt, &cursor.take_uvarint());
    show(rt, &cursor.take_varint());
    show(rt, &cursor.take_u32());
    show(rt, &cursor.take_u8());
    show(rt, &cursor.take_u16());
    show(rt, &cursor.take_u64());
    show(rt, &cursor.take_u64());
    tell(rt, "at ", &cursor.place());
    put(rt, ": ");
    let mut rest = Cursor::at(bytes, cursor.place().min(bytes.len()));
    show(rt, &rest.rest());
    show(rt, &rest.take_bytes(2));
    show(rt, &rest.take_bytes(1));
}

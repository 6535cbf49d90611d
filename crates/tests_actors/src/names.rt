//! The bytes that rows speak of by a name.
use crate::says::cut;
use std::str;
use wire_bytes::Blob;

/// Bytes under a name.
#[derive(Drop)]
pub(crate) struct Named {
    name: String,
    bytes: Blob,
}

/// The bytes of that name, and where there are none, some that are no object.
pub(crate) fn bytes_of<'a>(objects: &'a [Named], name: &str) -> &'a [u8] {
    for one in objects {
        if one.name.as_str() == name {
            return one.bytes.bytes();
        }
    }
    b"no object"
}

/// The text of that name.
pub(crate) fn text_of<'a>(objects: &'a [Named], name: &str) -> &'a str {
    str::from_utf8(bytes_of(objects, name)).unwrap_or("")
}

/// Names a text: NAME TEXT.
pub(crate) fn add_text(objects: &mut Vec<Named>, row: &str) {
    let (name, text) = cut(row);
    add(objects, name, text.as_bytes());
}

/// Names bytes: NAME PIECE... A piece is hexadecimal, and behind it may stand `*COUNT`.
pub(crate) fn add_bytes(objects: &mut Vec<Named>, row: &str) {
    let (name, pieces) = cut(row);
    let mut bytes = Vec::new(*objects.allocator());
    for piece in pieces.split(' ') {
        let (digits, count) = piece.split_once('*').unwrap_or((piece, "1"));
        if let Ok(decoded) = hex::decode(*objects.allocator(), digits) {
            for _ in 0..count.parse::<u32>().unwrap_or(0) {
                let _ = bytes.extend_from_slice(decoded.as_slice());
            }
        }
    }
    add(objects, name, bytes.as_slice());
}

fn add(objects: &mut Vec<Named>, name: &str, bytes: &[u8]) {
    let alloc = *objects.allocator();
    let Ok(name) = String::from_str(alloc, name) else {
        return;
    };
    if let Ok(bytes) = Blob::from_bytes(alloc, bytes) {
        let _ = objects.push(Named { name, bytes });
    }
}

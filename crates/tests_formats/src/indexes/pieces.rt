//! The notation of bytes: pieces in hexadecimal, with a blank between. A piece stands behind what is there, or with `PLACE=` in
//! front of it in the place of the bytes from there on.

/// Puts pieces to bytes. A piece whose digits are none is left out.
pub(crate) fn put_pieces(out: &mut Vec<u8>, pieces: &str) {
    for piece in pieces.split(' ') {
        put_piece(out, piece);
    }
}

fn put_piece(out: &mut Vec<u8>, piece: &str) {
    let (place, digits) = piece.split_once('=').unwrap_or(("", piece));
    let mut place = place.parse().unwrap_or(out.len());
    if let Ok(bytes) = hex::decode(*out.allocator(), digits) {
        for byte in bytes.as_slice() {
            if place < out.len() {
                out[place] = *byte;
            } else {
                let _ = out.push(*byte);
            }
            place = place.saturating_add(1);
        }
    }
}

use std::alloc::Global;

/// The text that a row stands for: its parts between bars, one behind another. A part with `N*` in front stands there so many
/// times, and `%` in it is the number of that time, from 0, in four digits. A `/` is a line's end, `?` the byte ff and `!` the
/// byte c0, neither of which is UTF-8 there.
pub(crate) fn spelled(alloc: Global, row: &str) -> Vec<u8> {
    let mut text = Vec::new(alloc);
    for part in row.split('|') {
        let (count, part) = part.split_once('*').unwrap_or(("1", part));
        for number in 0..count.parse::<u32>().unwrap_or(1) {
            put_part(alloc, &mut text, part, number);
        }
    }
    text
}

fn put_part(alloc: Global, text: &mut Vec<u8>, part: &str, number: u32) {
    for byte in part.bytes() {
        if byte == b'%' {
            if let Ok(digits) = format!(in alloc; "{number:04}") {
                let _ = text.extend_from_slice(digits.as_bytes());
            }
        } else {
            let _ = text.push(meant(byte));
        }
    }
}

/// The byte that a byte of a row stands for.
fn meant(byte: u8) -> u8 {
    match byte {
        b'/' => b'\n',
        b'?' => 0xff,
        b'!' => 0xc0,
        other => other,
    }
}

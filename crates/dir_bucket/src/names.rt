ghost use Rattle.std.specs.Prelude.{◌≡◌};
ghost use Rattle.dir_bucket.specs.Names.{is_odd_start as is_odd_start_of, has_odd_part as has_odd_part_in, is_plain as is_plain_name};

/// Whether the name stands for a file below a folder for which no other name stands.
pub(crate) fn is_plain(name: &str) -> bool
    ensures { result ≡ is_plain_name name.now }
{
    let bytes = name.as_bytes();
    !(is_odd_start(bytes) || has_odd_part(bytes))
}

/// Whether a part begins here that is empty or begins with a dot.
fn is_odd_start(bytes: &[u8]) -> bool
    ensures { result ≡ is_odd_start_of bytes.now }
{
    match bytes {
        [] => true,
        [first, ..] => *first == b'/' || *first == b'.',
    }
}

/// Whether such a part begins behind a slash, or a byte is 0.
fn has_odd_part(bytes: &[u8]) -> bool
    ensures { result ≡ has_odd_part_in bytes.now }
{
    for place in 0..bytes.len() {
        let byte = bytes[place];
        if (byte == b'/' && is_odd_start(&bytes[place + 1..])) || byte == 0 {
            return true;
        }
    }
    false
}

/// The folder of a path, which is the text before its last slash.
pub(crate) fn parent(path: &str) -> &str {
    match path.rsplit_once('/') {
        Some((folder, _)) => folder,
        None => "",
    }
}

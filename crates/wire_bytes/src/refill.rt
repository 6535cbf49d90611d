//! How the word of a bit reader is filled anew: by one load of eight bytes while so many are left, and byte by byte at
//! the end. The fast way stands inside the loops that decode, so the slow one is kept out of it.

ghost use Rattle.std.specs.Prelude.{◌≡◌, ◌+◌, ◌<◌, ◌≤◌, [], length, ◌⊎◌};
ghost use Rattle.wire_bytes.specs.Buffer.{IsBuffer, buffered, peek_limit};

/// How many bits wait at least in a word that has no room for one byte more.
const PEEK_LIMIT: u32 = 56;

/// A word in which as many bits wait as are needed, or all that are left, and the bytes after them.
#[inline(always)]
pub(crate) fn refill_word(need: u32, word: u64, count: u32, bytes: &[u8]) -> (u64, u32, &[u8])
    requires few { need ≤ peek_limit }
    requires buffer { IsBuffer word count }
    ensures same { buffered result.0 result.1 result.2.now ≡ buffered word count bytes.now }
    ensures buffer { IsBuffer result.0 result.1 }
    ensures ready { (need ≤ result.1) ⊎ (result.2.now ≡ []) }
{
    if need <= count || bytes.is_empty() {
        (word, count, bytes)
    } else if bytes.len() >= 8 {
        refill_by_word(word, count, bytes)
    } else {
        refill_at_end(word, count, bytes)
    }
}

/// The last bytes, one by one. Its temporaries stand here, off the fast path.
#[inline(always)]
fn refill_at_end(word: u64, count: u32, bytes: &[u8]) -> (u64, u32, &[u8])
    requires { IsBuffer word count }
    ensures same { buffered result.0 result.1 result.2.now ≡ buffered word count bytes.now }
    ensures buffer { IsBuffer result.0 result.1 }
    ensures full { (peek_limit ≤ result.1) ⊎ (result.2.now ≡ []) }
{
    let (word, count, bytes) = refill_by_bytes(word, count, bytes);
    (word, count, bytes)
}

#[inline(always)]
fn refill_by_word(word: u64, count: u32, bytes: &[u8]) -> (u64, u32, &[u8])
    requires buffer { IsBuffer word count }
    requires room { count < peek_limit }
    requires bytes { 8 ≤ length bytes.now }
    ensures same { buffered result.0 result.1 result.2.now ≡ buffered word count bytes.now }
    ensures buffer { IsBuffer result.0 result.1 }
    ensures full { peek_limit ≤ result.1 }
{
    let next = u64::from_be_bytes([
        bytes[0], bytes[1], bytes[2], bytes[3], bytes[4], bytes[5], bytes[6], bytes[7],
    ]);
    let taken = (63 - count) / 8;
    let field = next >> (64 - 8 * taken);
    let after = count + 8 * taken;
    (
        word | (field << (64 - after)),
        after,
        &bytes[taken as usize..],
    )
}

#[cold]
#[inline(never)]
fn refill_by_bytes(mut word: u64, mut count: u32, mut bytes: &[u8]) -> (u64, u32, &[u8])
    requires { IsBuffer word count }
    ensures same { buffered result.0 result.1 result.2.now ≡ buffered word count bytes.now }
    ensures buffer { IsBuffer result.0 result.1 }
    ensures full { (peek_limit ≤ result.1) ⊎ (result.2.now ≡ []) }
{
    while count < PEEK_LIMIT {
        if bytes.is_empty() {
            break;
        }
        let first = bytes[0];
        word |= u64::from(first) << (56 - count);
        count += 8;
        bytes = &bytes[1..];
    }
    (word, count, bytes)
}

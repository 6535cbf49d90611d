//! How bits leave a bit reader. Mostly they wait in its word or come with the next eight bytes: both ways stand inside
//! the loops that decode. What is left at the end of the data goes through calls.

ghost use Rattle.std.specs.Prelude.{◌≡◌, ◌↔◌, ◌^◌, ◌<◌, ◌≤◌, ◌++◌, length, IsNone, IfSome};
ghost use Rattle.wire_bytes.specs.Bits.{bits_of};
ghost use Rattle.wire_bytes.specs.Buffer.{IsBuffer, buffered};

use crate::refill::refill_word;

/// The next bits as a number, and then the word, how many bits wait in it and the bytes after them;
/// nothing where bits lack.
#[inline(always)]
pub(crate) fn take_from(
    need: u32,
    word: u64,
    count: u32,
    bytes: &[u8],
) -> Option<(u64, u64, u32, &[u8])>
    requires few { need ≤ 64 }
    requires buffer { IsBuffer word count }
    ensures taken { IfSome result (λ t. buffered word count bytes.now
        ≡ bits_of need t.0 ++ buffered t.1 t.2 t.3.now) }
    ensures number { IfSome result (λ t. t.0 < 2 ^ need) }
    ensures buffer { IfSome result (λ t. IsBuffer t.1 t.2) }
    ensures short { IsNone result ↔ (length (buffered word count bytes.now) < need) }
{
    if need <= count {
        Some(take_waiting(need, word, count, bytes))
    } else if bytes.len() >= 8 {
        Some(take_across(need, word, count, bytes))
    } else {
        take_at_end(need, word, count, bytes)
    }
}

/// Takes bits that as a rule wait already.
#[inline(always)]
pub(crate) fn take_ready(
    need: u32,
    word: u64,
    count: u32,
    bytes: &[u8],
) -> Option<(u64, u64, u32, &[u8])>
    requires few { need ≤ 64 }
    requires buffer { IsBuffer word count }
    ensures taken { IfSome result (λ t. buffered word count bytes.now
        ≡ bits_of need t.0 ++ buffered t.1 t.2 t.3.now) }
    ensures number { IfSome result (λ t. t.0 < 2 ^ need) }
    ensures buffer { IfSome result (λ t. IsBuffer t.1 t.2) }
    ensures short { IsNone result ↔ (length (buffered word count bytes.now) < need) }
{
    if need <= count {
        Some(take_waiting(need, word, count, bytes))
    } else {
        take_at_end(need, word, count, bytes)
    }
}

/// Bits that wait.
#[inline(always)]
fn take_waiting(need: u32, word: u64, count: u32, bytes: &[u8]) -> (u64, u64, u32, &[u8])
    requires wait { need ≤ count }
    requires buffer { IsBuffer word count }
    ensures taken { buffered word count bytes.now
        ≡ bits_of need result.0 ++ buffered result.1 result.2 result.3.now }
    ensures number { result.0 < 2 ^ need }
    ensures buffer { IsBuffer result.1 result.2 }
{
    (
        (word >> 1) >> (63 - need),
        word << need,
        count - need,
        bytes,
    )
}

/// All bits that wait, and the first of the next eight bytes.
#[inline(always)]
fn take_across(need: u32, word: u64, count: u32, bytes: &[u8]) -> (u64, u64, u32, &[u8])
    requires few { need ≤ 64 }
    requires more { count < need }
    requires buffer { IsBuffer word count }
    requires bytes { 8 ≤ length bytes.now }
    ensures taken { buffered word count bytes.now
        ≡ bits_of need result.0 ++ buffered result.1 result.2 result.3.now }
    ensures number { result.0 < 2 ^ need }
    ensures buffer { IsBuffer result.1 result.2 }
{
    let next = u64::from_be_bytes([
        bytes[0], bytes[1], bytes[2], bytes[3], bytes[4], bytes[5], bytes[6], bytes[7],
    ]);
    let lacking = need - count;
    (
        (word | (next >> count)) >> (64 - need),
        (next << 1) << (lacking - 1),
        64 - lacking,
        &bytes[8..],
    )
}

/// Bits that wait, or come in the last bytes. Its temporaries stand here, off the fast path.
#[inline(always)]
fn take_at_end(need: u32, word: u64, count: u32, bytes: &[u8]) -> Option<(u64, u64, u32, &[u8])>
    requires few { need ≤ 64 }
    requires buffer { IsBuffer word count }
    ensures taken { IfSome result (λ t. buffered word count bytes.now
        ≡ bits_of need t.0 ++ buffered t.1 t.2 t.3.now) }
    ensures number { IfSome result (λ t. t.0 < 2 ^ need) }
    ensures buffer { IfSome result (λ t. IsBuffer t.1 t.2) }
    ensures short { IsNone result ↔ (length (buffered word count bytes.now) < need) }
{
    let (number, word, count, bytes) = take_slowly(need, word, count, bytes)?;
    Some((number, word, count, bytes))
}

#[cold]
#[inline(never)]
fn take_slowly(need: u32, word: u64, count: u32, bytes: &[u8]) -> Option<(u64, u64, u32, &[u8])>
    requires few { need ≤ 64 }
    requires buffer { IsBuffer word count }
    ensures taken { IfSome result (λ t. buffered word count bytes.now
        ≡ bits_of need t.0 ++ buffered t.1 t.2 t.3.now) }
    ensures number { IfSome result (λ t. t.0 < 2 ^ need) }
    ensures buffer { IfSome result (λ t. IsBuffer t.1 t.2) }
    ensures short { IsNone result ↔ (length (buffered word count bytes.now) < need) }
{
    if need <= 32 {
        return take_half(need, word, count, bytes);
    }
    let (high, word, count, bytes) = take_half(need - 32, word, count, bytes)?;
    let (low, word, count, bytes) = take_half(32, word, count, bytes)?;
    Some(((high << 32) | low, word, count, bytes))
}

/// At most half a word of bits.
fn take_half(need: u32, word: u64, count: u32, bytes: &[u8]) -> Option<(u64, u64, u32, &[u8])>
    requires few { need ≤ 32 }
    requires buffer { IsBuffer word count }
    ensures taken { IfSome result (λ t. buffered word count bytes.now
        ≡ bits_of need t.0 ++ buffered t.1 t.2 t.3.now) }
    ensures number { IfSome result (λ t. t.0 < 2 ^ need) }
    ensures buffer { IfSome result (λ t. IsBuffer t.1 t.2) }
    ensures short { IsNone result ↔ (length (buffered word count bytes.now) < need) }
{
    let (word, count, bytes) = refill_word(need, word, count, bytes);
    if count < need {
        return None;
    }
    Some(take_waiting(need, word, count, bytes))
}

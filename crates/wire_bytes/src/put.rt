//! The writer under all formats of a block, the other side of `cursor`: fields are appended whole or, where memory is
//! lacking, not at all, so that a writer is never left with half of one.

ghost use Rattle.std.specs.Prelude.{◌≡◌, ◌+◌, ◌%◌, ◌^◌, ◌<◌, ◌++◌, ◌∷◌, [], ◌≤◌, List, length, take, OnOk, OnErr, ℕ, ℤ};
ghost use Rattle.std.specs.Int.{w16, w32, w64, to_be_bytes};
ghost use Rattle.wire_bytes.specs.Fields.{zigzag, group_base};
ghost use Rattle.wire_bytes.specs.FieldTexts.{IsUvarint, IsVarint};
ghost use Rattle.wire_bytes.specs.Written.{uvarint_text, varint_text};

use crate::varint::{BASE, groups, zigzag};
use base::NoMemory;

/// Appends a byte.
pub fn put_u8(out: &mut Vec<u8>, n: u8) -> Result<(), NoMemory>
    ensures ok { OnOk result (out.new.items ≡ out.old.items ++ n ∷ []) }
    ensures err { OnErr result (out.new.items ≡ out.old.items) }
{
    out.push(n)?;
    Ok(())
}

/// Appends two bytes, the highest first.
pub fn put_u16(out: &mut Vec<u8>, n: u16) -> Result<(), NoMemory>
    ensures ok { OnOk result (out.new.items ≡ out.old.items ++ to_be_bytes w16 n) }
    ensures err { OnErr result (out.new.items ≡ out.old.items) }
{
    put_bytes(out, &n.to_be_bytes())
}

/// Appends four bytes, the highest first.
pub fn put_u32(out: &mut Vec<u8>, n: u32) -> Result<(), NoMemory>
    ensures ok { OnOk result (out.new.items ≡ out.old.items ++ to_be_bytes w32 n) }
    ensures err { OnErr result (out.new.items ≡ out.old.items) }
{
    put_bytes(out, &n.to_be_bytes())
}

/// Appends eight bytes, the highest first.
pub fn put_u64(out: &mut Vec<u8>, n: u64) -> Result<(), NoMemory>
    ensures ok { OnOk result (out.new.items ≡ out.old.items ++ to_be_bytes w64 n) }
    ensures err { OnErr result (out.new.items ≡ out.old.items) }
{
    put_bytes(out, &n.to_be_bytes())
}

/// Appends a number in base 128, in as few bytes as it takes.
#[tactic(auto, using(crate::proofs::GroupTexts::uvarint_text_is, crate::proofs::GroupTexts::uvarint_text_least))]
pub fn put_uvarint(out: &mut Vec<u8>, n: u64) -> Result<(), NoMemory>
    ensures ok { OnOk result (out.new.items ≡ out.old.items ++ uvarint_text n) }
    ensures err { OnErr result (out.new.items ≡ out.old.items) }

    // What is put is a text of the number, and no text of it is shorter.
    ensures lawful { IsUvarint (uvarint_text n) n }
    ensures least { (text : List ℕ) → IsUvarint text n → length (uvarint_text n) ≤ length text }
{
    if n < 1 << 21 {
        put_short(out, n)
    } else {
        put_long(out, n)
    }
}

/// How many values two groups can have.
const TWO_GROUPS: u64 = BASE * BASE;

/// The lowest group of a number, behind which others follow.
#[inline(always)]
fn low_group(n: u64) -> u8
    ensures { result ≡ group_base + n % group_base }
{
    (BASE + n % BASE) as u8
}

/// Appends a number of at most three groups. How many bytes are put is known in each branch, so no call copies them.
#[inline(always)]
fn put_short(out: &mut Vec<u8>, n: u64) -> Result<(), NoMemory>
    requires { n < 2 ^ 21 }
    ensures ok { OnOk result (out.new.items ≡ out.old.items ++ uvarint_text n) }
    ensures err { OnErr result (out.new.items ≡ out.old.items) }
{
    if n < BASE {
        put_bytes(out, &[n as u8])
    } else if n < TWO_GROUPS {
        put_bytes(out, &[low_group(n), (n / BASE) as u8])
    } else {
        put_bytes(
            out,
            &[low_group(n), low_group(n / BASE), (n / TWO_GROUPS) as u8],
        )
    }
}

/// Appends a number of any size.
fn put_long(out: &mut Vec<u8>, n: u64) -> Result<(), NoMemory>
    ensures ok { OnOk result (out.new.items ≡ out.old.items ++ uvarint_text n) }
    ensures err { OnErr result (out.new.items ≡ out.old.items) }
{
    let (groups, count) = groups(n);
    put_bytes(out, &groups[..count])
}

/// Appends a signed number by its place in the order 0, -1, 1, -2, 2.
#[tactic(auto, using(crate::proofs::GroupTexts::varint_text_is, crate::proofs::GroupTexts::varint_text_least), unfolding(crate::specs::Written::varint_text))]
pub fn put_varint(out: &mut Vec<u8>, n: i64) -> Result<(), NoMemory>
    ensures ok { OnOk result (out.new.items ≡ out.old.items ++ varint_text n) }
    ensures err { OnErr result (out.new.items ≡ out.old.items) }

    // What is put is a text of the number, and no text of it is shorter.
    ensures lawful { IsVarint (varint_text n) n }
    ensures least { (text : List ℕ) → IsVarint text n → length (varint_text n) ≤ length text }
{
    put_uvarint(out, zigzag(n))
}

/// Appends bytes.
pub fn put_bytes(out: &mut Vec<u8>, bytes: &[u8]) -> Result<(), NoMemory>
    ensures ok { OnOk result (out.new.items ≡ out.old.items ++ bytes.now) }
    ensures err { OnErr result (out.new.items ≡ out.old.items) }
{
    out.extend_from_slice(bytes)?;
    Ok(())
}

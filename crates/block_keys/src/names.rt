//! The names of a block's objects as texts, written and read byte for byte. A bucket may hold other names too, which
//! are no keys, and whoever lists passes over them.

ghost use Rattle.std.specs.Prelude.{◌≡◌, ◌++◌, ◌+◌, ◌%◌, ◌≤◌, IfOk, OnOk, codes};
ghost use Rattle.std.specs.String.{string_bytes};
ghost use Rattle.base.specs.Decimal.{digit_zero};
ghost use Rattle.ulid_core.specs.UlidText.{IsUlidText, text_of};
ghost use Rattle.block_keys.specs.Keys.{segment_limit};
ghost use Rattle.block_keys.specs.KeyText.{key_of, key_named, number_of, segment_of, six_digits};

use crate::Key;
use base::{NoMemory, all_digits};
use std::alloc::Global;
use ulid_core::Ulid;

/// Appends `chunks/` and the six digits of a segment's number.
pub(crate) fn put_segment_name(out: &mut Vec<u8>, number: u32) -> Result<(), NoMemory>
    requires { number ≤ segment_limit }
    ensures { OnOk result (out.new.items ≡ out.old.items ++ codes "chunks/" ++ six_digits number) }
{
    out.extend_from_slice(b"chunks/")?;
    out.extend_from_slice(&six_digits(number))?;
    Ok(())
}

/// The six decimal digits by which a segment is named. Of a number of more digits they are the last six, which name another
/// segment as well.
#[tactic(auto, unfolding(crate::specs::KeyText::six_digits))]
pub fn six_digits(number: u32) -> [u8; 6]
    ensures { result ≡ six_digits number }
{
    [
        digit_of(number / 100_000),
        digit_of(number / 10_000),
        digit_of(number / 1_000),
        digit_of(number / 100),
        digit_of(number / 10),
        digit_of(number),
    ]
}

fn digit_of(number: u32) -> u8
    ensures { result ≡ digit_zero + number % 10 }
{
    b'0' + (number % 10) as u8
}

/// The text under which the block's object with that name stands in a bucket.
pub fn text_in_block(alloc: Global, ulid: Ulid, name: &str) -> Result<String, NoMemory>
    ensures value { IfOk result
        (λ text. string_bytes text ≡ text_of ulid ++ codes "/" ++ name.now) }
    ensures block { OnOk result (IsUlidText (text_of ulid) ulid) }
{
    let mut text = ulid.to_string(alloc)?;
    text.push_str("/")?;
    text.push_str(name)?;
    Ok(text)
}

#[tactic(auto, unfolding(crate::specs::KeyText::key_of))]
pub(crate) fn read_key(text: &str) -> Option<Key>
    ensures { result ≡ key_of text.now }
{
    let (block, name) = text.split_once('/')?;
    let ulid = Ulid::read(block).ok()?;
    read_name(ulid, name)
}

#[tactic(auto, unfolding(crate::specs::KeyText::key_named))]
fn read_name(ulid: Ulid, name: &str) -> Option<Key>
    ensures { result ≡ key_named ulid name.now }
{
    match name {
        "meta.json" => Some(Key::Meta(ulid)),
        "index" => Some(Key::Index(ulid)),
        "deletion-mark.json" => Some(Key::Mark(ulid)),
        _ => read_segment(name).map(|number| Key::Segment(ulid, number)),
    }
}

#[tactic(auto, unfolding(crate::specs::KeyText::segment_of))]
fn read_segment(name: &str) -> Option<u32>
    ensures { result ≡ segment_of name.now }
{
    let (folder, digits) = name.split_once('/')?;
    if folder != "chunks" {
        return None;
    }
    read_number(digits)
}

#[tactic(auto, unfolding(crate::specs::KeyText::number_of))]
fn read_number(digits: &str) -> Option<u32>
    ensures { result ≡ number_of digits.now }
{
    if digits.len() != 6 || !all_digits(digits.as_bytes()) {
        return None;
    }
    let number = digits.parse::<u32>().ok()?;
    if number == 0 {
        return None;
    }
    Some(number)
}

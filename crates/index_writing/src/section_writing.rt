//! The frame of each section: its length in front, and its sum behind. A section is appended whole or not at all, where
//! memory is lacking.

ghost use Rattle.std.specs.Prelude.{◌≡◌, ◌++◌, ◌<◌, ◌^◌, length, take, OnOk, OnErr, List, ℕ};
ghost use Rattle.std.specs.Int.{w32, to_be_bytes};
ghost use Rattle.std.specs.Str.{IsUtf8};
ghost use Rattle.wire_bytes.specs.Crc.{crc};
ghost use Rattle.index_parts.specs.Framed.{IsSection, IsEntry, section_text, entry_text, text_field};

use base::{NoMemory, cut_on_err};
use label_sets::Text;
use wire_bytes::{crc_of, put_bytes, put_u32, put_uvarint};

/// Appends a text behind its length.
pub(crate) fn put_text(out: &mut Vec<u8>, text: &Text) -> Result<(), NoMemory>
    ensures ok { OnOk result (out.new.items ≡ out.old.items ++ text_field text.now) }
    ensures utf8 { IsUtf8 text.now }
{
    let bytes = text.as_str().as_bytes();
    put_uvarint(out, bytes.len() as u64)?;
    put_bytes(out, bytes)
}

/// Appends content and its sum, or a part of it where memory runs out.
fn put_summed(out: &mut Vec<u8>, content: &[u8], sum: u32) -> Result<(), NoMemory>
    requires { sum ≡ crc content.now }
    ensures ok { OnOk result
        (out.new.items ≡ out.old.items ++ content.now ++ to_be_bytes w32 (crc content.now)) }
    ensures kept { take (length out.old.items) out.new.items ≡ out.old.items }
{
    put_bytes(out, content)?;
    put_u32(out, sum)
}

/// Appends a section, or a part of it where memory runs out.
#[tactic(auto, unfolding(index_parts::specs::Framed::section_text))]
fn put_section(out: &mut Vec<u8>, content: &[u8], sum: u32) -> Result<(), NoMemory>
    requires size { length content.now < 2 ^ 32 }
    requires sum { sum ≡ crc content.now }
    ensures ok { OnOk result (out.new.items ≡ out.old.items ++ section_text content.now) }
    ensures kept { take (length out.old.items) out.new.items ≡ out.old.items }
{
    put_u32(out, content.len() as u32)?;
    put_summed(out, content, sum)
}

/// Appends an entry, or a part of it where memory runs out.
#[tactic(auto, unfolding(index_parts::specs::Framed::entry_text))]
fn put_entry(out: &mut Vec<u8>, content: &[u8], sum: u32) -> Result<(), NoMemory>
    requires { sum ≡ crc content.now }
    ensures ok { OnOk result (out.new.items ≡ out.old.items ++ entry_text content.now) }
    ensures kept { take (length out.old.items) out.new.items ≡ out.old.items }
    ensures fits { length content.now < 2 ^ 64 }
{
    put_uvarint(out, content.len() as u64)?;
    put_summed(out, content, sum)
}

/// Appends content and its sum.
pub(crate) fn append_summed(out: &mut Vec<u8>, content: &[u8]) -> Result<(), NoMemory>
    ensures ok { OnOk result
        (out.new.items ≡ out.old.items ++ content.now ++ to_be_bytes w32 (crc content.now)) }
    ensures err { OnErr result (out.new.items ≡ out.old.items) }
    ensures sum { OnOk result (crc content.now < 2 ^ 32) }
{
    let start = out.len();
    let put = put_summed(out, content, crc_of(content));
    cut_on_err(out, start, put)
}

/// Appends a section, with the length of its content in four bytes.
pub(crate) fn append_section(out: &mut Vec<u8>, content: &[u8]) -> Result<(), NoMemory>
    requires { length content.now < 2 ^ 32 }
    ensures ok { OnOk result (out.new.items ≡ out.old.items ++ section_text content.now) }
    ensures err { OnErr result (out.new.items ≡ out.old.items) }
    ensures stands { (after : List ℕ)
        → OnOk result (IsSection (out.new.items ++ after) (length out.old.items) content.now) }
{
    let start = out.len();
    let put = put_section(out, content, crc_of(content));
    cut_on_err(out, start, put)
}

/// Appends an entry, with the length of its content in base 128.
pub(crate) fn append_entry(out: &mut Vec<u8>, content: &[u8]) -> Result<(), NoMemory>
    ensures ok { OnOk result (out.new.items ≡ out.old.items ++ entry_text content.now) }
    ensures err { OnErr result (out.new.items ≡ out.old.items) }
    ensures stands { (after : List ℕ)
        → OnOk result (IsEntry (out.new.items ++ after) (length out.old.items) content.now) }
{
    let start = out.len();
    let put = put_entry(out, content, crc_of(content));
    cut_on_err(out, start, put)
}

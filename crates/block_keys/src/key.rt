//! The objects of a block in its bucket, in the layout of Thanos: a folder that is named by the ULID has the meta, the
//! index, the segments and the mark. Keys are in the order of their texts, so that what a page lists is in the order of
//! keys.

ghost use Rattle.std.specs.Prelude.{◌≡◌, ◌++◌, ◌↔◌, IfOk, IsErr, OnOk};
ghost use Rattle.std.specs.Cmp.Lexicographic.{slice_cmp};
ghost use Rattle.std.specs.Result.{result_ok};
ghost use Rattle.std.specs.Ordering.{nat_cmp};
ghost use Rattle.ulid_core.specs.UlidText.{IsUlidText, text_of};
ghost use Rattle.block_keys.specs.Keys.{IsLawfulKey, key_ulid, key_kind, key_number, key_cmp};
ghost use Rattle.block_keys.specs.KeyText.{IsKeyText, key_of, key_text, name_of};

use crate::names::{put_segment_name, read_key};
use base::{NoMemory, TryCopy};
use label_sets::Text;
use std::alloc::Global;
use std::cmp::Ordering;
use ulid_core::Ulid;

/// The text is no key.
#[derive(Clone, Copy, Debug, PartialEq, Eq)]
pub struct NotAKey;

/// The greatest number of a segment, as its name has six digits.
pub const SEGMENT_LIMIT: u32 = 999_999;

/// How many bytes the longest key has, that of a mark.
const LONGEST: usize = 45;

/// The key of a block's object, in the order of its text.
#[derive(Clone, Copy, Debug, PartialEq, Eq)]
pub enum Key {
    Meta(Ulid),
    Index(Ulid),
    /// A segment of chunks and its number, from 1 to 999,999.
    Segment(Ulid, u32),
    Mark(Ulid),
}

impl Key {
    /// The block that the object belongs to.
    pub fn ulid(self) -> Ulid
        ensures { result ≡ key_ulid self }
    {
        match self {
            Key::Meta(ulid) | Key::Index(ulid) | Key::Segment(ulid, _) | Key::Mark(ulid) => ulid,
        }
    }

    /// The text under which the object stands in a bucket.
    pub fn text(self, alloc: Global) -> Result<Text, NoMemory>
        requires { IsLawfulKey self }
        ensures value { IfOk result (λ text. text ≡ key_text self) }
        ensures written { IfOk result (λ text. IsKeyText text self) }
    {
        let bytes = self.bytes(alloc)?;
        Ok(Text::from_string(String::from_utf8(bytes).unwrap()))
    }

    /// The bytes of the text, all of which are ASCII.
    #[tactic(auto, unfolding(crate::specs::KeyText::key_text))]
    fn bytes(&self, alloc: Global) -> Result<Vec<u8>, NoMemory>
        requires { IsLawfulKey self.now }
        ensures value { IfOk result (λ bytes. bytes.items ≡ key_text self.now) }
        ensures block { OnOk result (IsUlidText (text_of (key_ulid self.now)) (key_ulid self.now)) }
    {
        let mut bytes = Vec::with_capacity(alloc, LONGEST)?;
        bytes.extend_from_slice(&self.ulid().text())?;
        bytes.extend_from_slice(b"/")?;
        self.put_name(&mut bytes)?;
        Ok(bytes)
    }

    /// Appends the name of the object within its block.
    #[tactic(auto, unfolding(crate::specs::KeyText::name_of))]
    fn put_name(&self, out: &mut Vec<u8>) -> Result<(), NoMemory>
        requires { IsLawfulKey self.now }
        ensures { OnOk result (out.new.items ≡ out.old.items ++ name_of self.now) }
    {
        match self {
            Key::Meta(_) => out.extend_from_slice(b"meta.json")?,
            Key::Index(_) => out.extend_from_slice(b"index")?,
            Key::Segment(_, number) => put_segment_name(out, *number)?,
            Key::Mark(_) => out.extend_from_slice(b"deletion-mark.json")?,
        }
        Ok(())
    }

    /// Reads a key's text.
    pub fn read(text: &str) -> Result<Key, NotAKey>
        ensures gives { result_ok result ≡ key_of text.now }
        ensures found { IfOk result (IsKeyText text.now) }
        ensures only { (key : _) → IsKeyText text.now key → result ≡ Ok key }
        ensures none { IsErr result ↔ ((key : _) → ¬ IsKeyText text.now key) }
        ensures lawful { IfOk result IsLawfulKey }
        ensures one_text { IfOk result (λ key. text.now ≡ key_text key) }
    {
        read_key(text).ok_or(NotAKey)
    }

    /// A law: keys with one text are one key.
    pub fn texts_differ(self, other: Key)
        requires lawful { IsLawfulKey self }
        requires other_lawful { IsLawfulKey other }
        ensures { key_text self ≡ key_text other → self ≡ other }
    {
        self.ulid().text_is_read();
        other.ulid().text_is_read();
    }

    /// A law: texts are in the order of their keys.
    pub fn texts_are_ordered(self, other: Key)
        requires lawful { IsLawfulKey self }
        requires other_lawful { IsLawfulKey other }
        ensures { slice_cmp nat_cmp (key_text self) (key_text other) ≡ key_cmp self other }
    {
        self.ulid().texts_are_ordered(other.ulid());
    }

    fn kind(&self) -> u8
        ensures { result ≡ key_kind self.now }
    {
        match self {
            Key::Segment(_, _) => 0,
            Key::Mark(_) => 1,
            Key::Index(_) => 2,
            Key::Meta(_) => 3,
        }
    }

    fn number(&self) -> u32
        ensures { result ≡ key_number self.now }
    {
        match self {
            Key::Segment(_, number) => *number,
            _ => 0,
        }
    }
}

impl PartialOrd for Key {
    ghost use Rattle.std.specs.Ordering.{as_partial_cmp};
    ghost use Rattle.std.proofs.Common.{rules};
    ghost use Rattle.std.specs.Cmp.{partial_order_from_own_ties};
    ghost use Rattle.std.specs.Cmp.Rules.{comparing};
    ghost use Rattle.block_keys.specs.Keys.{key_cmp};

    ghost partial_cmp = { as_partial_cmp key_cmp };

    ghost laws = { partial_order_from_own_ties
        (Prim.search (comparing, rules)) (Prim.search (comparing, rules)) };

    fn partial_cmp(&self, other: &Key) -> Option<Ordering> {
        Some(self.cmp(other))
    }
}

impl Ord for Key {
    ghost use Rattle.std.proofs.Common.{rules};
    ghost use Rattle.std.specs.Cmp.Rules.{comparing};
    ghost use Rattle.block_keys.specs.Keys.{key_cmp};

    ghost cmp = { key_cmp };

    ghost total = { Prim.search (comparing, rules) };

    ghost matches_partial_cmp = { Prim.search (comparing, rules) };

    ghost matches_eq = { Prim.search (comparing, rules) };

    fn cmp(&self, other: &Key) -> Ordering {
        let blocks = self.ulid().cmp(&other.ulid());
        let kinds = self.kind().cmp(&other.kind());
        blocks.then(kinds.then(self.number().cmp(&other.number())))
    }
}

impl TryCopy for Key {
    fn copy(&self) -> Result<Self, NoMemory>
        ensures { result ≡ Ok self.now }
    {
        Ok(*self)
    }
}

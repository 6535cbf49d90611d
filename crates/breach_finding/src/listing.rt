//! Pages as the bucket would have to answer them, by what was put and deleted. A page mostly begins behind a name that
//! stands, and is looked up from there; only behind a strange name all keys are gone through.

ghost use Rattle.std.specs.Prelude.{◌≡◌, ◌↔◌, ◌==◌, ◌&&◌, ◌∷◌, ◌++◌, List, [], ℕ, IfOk, IsTrue, find, option_map, Some};
ghost use Rattle.std.specs.List.{after_first};
ghost use Rattle.std.specs.String.{string_bytes};
ghost use Rattle.std.specs.BTreeMap.{IsOrdered, keys};
ghost use Rattle.std.specs.Option.{option_copied};
ghost use Rattle.std.specs.declared.cmp.Ordering.TheVariants.{Less};
ghost use Rattle.base.specs.Order.{comes_after};
ghost use Rattle.ulid_core.specs.UlidText.{text_of};
ghost use Rattle.label_sets.specs.Labels.{compare_texts};
ghost use Rattle.block_keys.specs.Keys.{IsLawfulKey, key_cmp, key_ulid};
ghost use Rattle.block_keys.specs.KeyText.{is_slash, key_text, name_of};
ghost use Rattle.bucket_core.specs.Contents.{Contents};
ghost use Rattle.bucket_core.specs.Pages.{IsPage};
ghost use Rattle.bucket_core.specs.Files.{slash};
ghost use Rattle.breach_finding.specs.Held.{HaveTexts, IsWritten};
ghost use Rattle.breach_finding.specs.Next.{IsBehindIn, IsDueAt, IsDueIn, IsFirstKey, IsNextBlock, is_due_block, is_due_object};
ghost use Rattle.breach_finding.specs.Standings.{IsStanding};
ghost use Rattle.world_core.specs.declared.entry.Entry.{Entry};

use crate::Standing;
use base::{List, NoMemory, TryCopy};
use block_keys::{Key, SEGMENT_LIMIT, text_in_block};
use label_sets::{Text, TextList};
use std::alloc::Global;
use std::cmp::Ordering;
use std::ops::Bound;
use ulid_core::Ulid;

/// Whether a name comes after the cursor.
fn comes_after(after: &[u8], name: &[u8]) -> bool
    ensures { result ≡ comes_after compare_texts (Some after.now) name.now }
{
    after.cmp(name) == Ordering::Less
}

/// Whether a block's name comes after the cursor.
fn block_comes_after(after: &str, key: &Key) -> bool
    ensures { result ≡ is_due_block after.now key.now }
{
    comes_after(after.as_bytes(), &key.ulid().text())
}

/// Whether a key can be written.
fn is_lawful(key: &Key) -> bool
    ensures { IsTrue result ↔ IsLawfulKey key.now }
{
    match key {
        Key::Segment(_, number) => *number >= 1 && *number <= SEGMENT_LIMIT,
        _ => true,
    }
}

/// Whether the key is the block's, and its text comes after the cursor's.
fn object_comes_after(alloc: Global, ulid: Ulid, cursor: &str, key: &Key) -> Result<bool, NoMemory>
    ensures { IsLawfulKey key.now
        → IfOk result (λ due. due ≡ is_due_object ulid cursor.now key.now) }
{
    if !is_lawful(key) {
        return Ok(false);
    }
    let text = key.text(alloc)?;
    Ok(is_due(ulid, cursor, key, text.as_str()))
}

/// Whether the key, which has this text, is the block's, and the text comes after the cursor's.
fn is_due(ulid: Ulid, cursor: &str, key: &Key, text: &str) -> bool
    ensures { result
        ≡ ((key_ulid key.now == ulid) && comes_after compare_texts (Some cursor.now) text.now) }
{
    key.ulid() == ulid && comes_after(cursor.as_bytes(), text.as_bytes())
}

/// The text of a cursor within a block.
fn cursor_of(alloc: Global, ulid: Ulid, after: &str) -> Result<String, NoMemory>
    ensures { IfOk result (λ text. string_bytes text ≡ text_of ulid ++ slash ∷ after.now) }
{
    text_in_block(alloc, ulid, after)
}

/// What follows the slash in a text.
fn behind_slash(text: &str) -> &str
    ensures { result.now ≡ after_first is_slash text.now }
{
    match text.split_once('/') {
        Some((_, name)) => name,
        None => "",
    }
}

/// The name of an object within its block.
fn name_text(alloc: Global, key: &Key) -> Result<Text, NoMemory>
    ensures { IsWritten key.now → IfOk result (λ name. name ≡ name_of key.now) }
{
    if !is_lawful(key) {
        return Ok(Text::from_str(alloc, "")?);
    }
    let text = key.text(alloc)?;
    Text::from_str(alloc, behind_slash(text.as_str()))
}

impl Standing {
    /// The first key behind this one.
    fn key_behind<'a>(&'a self, key: &Key) -> Option<&'a Key>
        ensures { IsFirstKey (λ other. key_cmp key.now other ≡ Less) self.now.places
            (option_copied result) }
    {
        let mut behind = self.places.range((Bound::Excluded(key), Bound::Unbounded));
        let (first, _) = behind.next()?;
        Some(first)
    }

    /// The next block after the cursor, which is no block's name.
    fn next_by_scan(&self, after: &str) -> Option<Ulid>
        ensures found { result
            ≡ option_map key_ulid (find (is_due_block after.now) (keys self.now.places)) }
        ensures ordered { IsOrdered key_cmp self.now.places }
    {
        for key in self.places.keys() {
            if block_comes_after(after, key) {
                return Some(key.ulid());
            }
        }
        None
    }

    /// The next block after this one.
    fn next_behind(&self, ulid: Ulid) -> Option<Ulid>
        ensures { HaveTexts self.now.places → IsNextBlock self.now.places (text_of ulid) result }
    {
        ulid.text_is_read();
        let next = self.key_behind(&Key::Meta(ulid))?;
        Some(next.ulid())
    }

    /// The first block with an object whose name comes after the cursor.
    fn next_block(&self, after: &str) -> Option<Ulid>
        ensures { HaveTexts self.now.places → IsNextBlock self.now.places after.now result }
    {
        match Ulid::read(after) {
            Ok(ulid) => self.next_behind(ulid),
            Err(_) => self.next_by_scan(after),
        }
    }

    /// A page of the names of the blocks with an object: the least ones after the cursor.
    pub fn page_of_blocks(
        &self,
        alloc: Global,
        after: &str,
        limit: u32,
    ) -> Result<TextList, NoMemory>
        ensures { IfOk result (λ names. (entries : List Entry) (contents : Contents)
            → IsStanding entries self.now contents → IsPage contents [] after.now limit names) }
    {
        let mut names = List::new(alloc);
        let mut last = Text::from_str(alloc, after)?;
        for _ in 0..limit {
            let Some(block) = self.next_block(last.as_str()) else {
                break;
            };
            let name = Text::from_string(block.to_string(alloc)?);
            last = name.copy()?;
            names.push(name)?;
        }
        Ok(names)
    }

    /// The first key of a block behind this one of its own. A block's keys lie together, in the order of their texts.
    fn object_behind(&self, ulid: Ulid, key: &Key) -> Option<Key>
        requires { key_ulid key.now ≡ ulid }
        ensures { IsFirstKey (IsBehindIn ulid key.now) self.now.places result }
    {
        let first = *self.key_behind(key)?;
        if first.ulid() == ulid {
            Some(first)
        } else {
            None
        }
    }

    /// The first key of the block whose name comes after this one. It goes over keys only where that is no object's name.
    fn next_object(&self, alloc: Global, ulid: Ulid, after: &str) -> Result<Option<Key>, NoMemory>
        ensures { HaveTexts self.now.places
            → IfOk result (IsFirstKey (IsDueIn ulid after.now) self.now.places) }
    {
        if after.is_empty() {
            return Ok(self.object_behind(ulid, &Key::Segment(ulid, 0)));
        }
        let cursor = cursor_of(alloc, ulid, after)?;
        match Key::read(cursor.as_str()) {
            Ok(key) => self.object_after(alloc, ulid, cursor.as_str(), key),
            Err(_) => self.object_by_scan(alloc, ulid, cursor.as_str()),
        }
    }

    /// The first key of the block whose text comes after that of this key, which may be of another block.
    fn object_after(
        &self,
        alloc: Global,
        ulid: Ulid,
        cursor: &str,
        key: Key,
    ) -> Result<Option<Key>, NoMemory>
        requires text { cursor.now ≡ key_text key }
        requires written { IsWritten key }
        ensures { HaveTexts self.now.places
            → IfOk result (IsFirstKey (IsDueAt ulid cursor.now) self.now.places) }
    {
        if key.ulid() == ulid {
            return Ok(self.object_behind(ulid, &key));
        }
        self.object_by_scan(alloc, ulid, cursor)
    }

    /// The first key of the block whose text comes after the cursor's, which is sought among all keys.
    fn object_by_scan(
        &self,
        alloc: Global,
        ulid: Ulid,
        cursor: &str,
    ) -> Result<Option<Key>, NoMemory>
        ensures found { HaveTexts self.now.places → IfOk result (λ key. key
            ≡ find (is_due_object ulid cursor.now) (keys self.now.places)) }
        ensures ordered { IsOrdered key_cmp self.now.places }
    {
        for key in self.places.keys() {
            if object_comes_after(alloc, ulid, cursor, key)? {
                return Ok(Some(*key));
            }
        }
        Ok(None)
    }

    /// A page of the names of a block's objects: the least ones after the cursor.
    pub fn page_of_block(
        &self,
        alloc: Global,
        ulid: Ulid,
        after: &str,
        limit: u32,
    ) -> Result<TextList, NoMemory>
        ensures { IfOk result (λ names. (entries : List Entry) (contents : Contents)
            → IsStanding entries self.now contents
            → IsPage contents (text_of ulid) after.now limit names) }
    {
        ulid.text_is_read();
        let mut names = List::new(alloc);
        let mut last = Text::from_str(alloc, after)?;
        for _ in 0..limit {
            let Some(key) = self.next_object(alloc, ulid, last.as_str())? else {
                break;
            };
            let name = name_text(alloc, &key)?;
            last = name.copy()?;
            names.push(name)?;
        }
        Ok(names)
    }
}

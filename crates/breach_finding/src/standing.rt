//! What stands in the bucket by its journal: of each object the place of the entry that put it. The bytes stay in that
//! entry, so a walk along a journal copies none of them.

ghost use Rattle.std.specs.Prelude.{◌≡◌, ℕ, List, option_map, Some, OnOk, OnErr};
ghost use Rattle.bucket_core.specs.Contents.{Contents, nothing, with_object, without_object};
ghost use Rattle.block_keys.specs.Keys.{IsLawfulKey};
ghost use Rattle.block_keys.specs.KeyText.{key_text};
ghost use Rattle.breach_finding.specs.Held.{IsWritten, put_at};
ghost use Rattle.breach_finding.specs.Standings.{IsStanding};
ghost use Rattle.world_core.specs.declared.entry.Entry.{Entry};

use base::NoMemory;
use block_keys::Key;
use std::alloc::Global;
use std::collections::BTreeMap;
use world_core::{Entry, Op};

/// What stands in a bucket after some of a list's entries: of each object the place of the entry that put it.
#[derive(Drop)]
pub struct Standing {
    pub(crate) places: BTreeMap<Key, usize>,
}

impl Standing {
    /// Nothing stands.
    pub fn nothing(alloc: Global) -> Standing
        ensures { (entries : List Entry) → IsStanding entries result nothing }
    {
        Standing {
            places: BTreeMap::new(alloc),
        }
    }

    /// Puts an object, whose bytes are those of the put at a place.
    pub fn put(&mut self, key: Key, place: usize) -> Result<(), NoMemory>
        requires { IsLawfulKey key }
        ensures ok { OnOk result ((entries : List Entry) (bytes : List ℕ) (contents : Contents)
            → put_at entries place ≡ Some bytes → IsStanding entries self.old contents
            → IsStanding entries self.new (with_object (key_text key) bytes contents)) }
        ensures err { OnErr result ((entries : List Entry) (contents : Contents)
            → IsStanding entries self.old contents → IsStanding entries self.new contents) }
    {
        has_text(&key);
        self.places.insert(key, place)?;
        Ok(())
    }

    /// Takes an object away.
    pub fn delete(&mut self, key: Key)
        requires { IsLawfulKey key }
        ensures { (entries : List Entry) (contents : Contents)
            → IsStanding entries self.old contents
            → IsStanding entries self.new (without_object (key_text key) contents) }
    {
        has_text(&key);
        self.places.remove(&key);
    }

    /// The object's bytes, if it stands.
    pub fn get<'a>(&self, entries: &'a [Entry], key: Key) -> Option<&'a [u8]>
        requires { IsLawfulKey key }
        ensures { (contents : Contents) → IsStanding entries.now self.now contents
            → option_map (λ bytes. bytes.now) result ≡ contents (key_text key) }
    {
        has_text(&key);
        let place = *self.places.get(&key)?;
        bytes_put(entries, place)
    }
}

/// A key that is lawful has a text.
fn has_text(key: &Key)
    requires { IsLawfulKey key.now }
    ensures { IsWritten key.now }
{
    key.ulid().text_is_read();
}

/// The bytes that are put at a place.
fn bytes_put(entries: &[Entry], place: usize) -> Option<&[u8]>
    ensures { option_map (λ bytes. bytes.now) result ≡ put_at entries.now place }
{
    match &entries.get(place)?.op {
        Op::Put(_, bytes) => Some(bytes.bytes()),
        _ => None,
    }
}

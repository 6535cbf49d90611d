//! The objects of a bucket in memory, sorted. They are in the order of their keys' first parts before that of their
//! keys: by keys alone `a-b/x` would stand before `a/x`, and so the name `a-b` before `a`.

ghost use Rattle.std.specs.Prelude.{◌≡◌, ◌<◌, ◌↔◌, length, List, ℕ, Some, None, IsTrue, OnOk, OnErr};
ghost use Rattle.std.specs.Option.{option_copied};
ghost use Rattle.std.specs.List.Sorted.{IsStrictlySortedBy};
ghost use Rattle.bucket_core.specs.Contents.{IsKey};
ghost use Rattle.bucket_core.specs.Stored.{first_part as first_part_of, key_cmp, is_before, by_key, have_keys, object_in, IsPlace, IsUpdated, StandsAt};

use base::{NoMemory, TryCopy};
use label_sets::Text;
use std::alloc::Global;
use std::cmp::Ordering;
use wire_bytes::Blob;

/// An object under its key.
#[derive(Drop)]
pub(crate) struct Stored {
    pub(crate) key: Text,
    pub(crate) bytes: Blob,
}

/// A key's part before its first slash.
pub(crate) fn first_part(key: &str) -> &str
    ensures { result.now ≡ first_part_of key.now }
{
    match key.split_once('/') {
        Some((first, _)) => first,
        None => key,
    }
}

/// The order of keys, of which the second has this first part.
fn order(one: &str, other: &str, first: &str) -> Ordering
    requires { first.now ≡ first_part_of other.now }
    ensures { result ≡ key_cmp one.now other.now }
{
    match first_part(one).cmp(first) {
        Ordering::Equal => one.cmp(other),
        unequal => unequal,
    }
}

/// Whether an object's key comes before this one, which has this first part.
fn comes_before(object: &Stored, key: &str, first: &str) -> bool
    requires { first.now ≡ first_part_of key.now }
    ensures { result ≡ is_before key.now object.now }
{
    order(object.key.as_str(), key, first) == Ordering::Less
}

/// The place where a key stands or would stand.
pub(crate) fn place_of(objects: &[Stored], key: &str) -> usize
    requires { IsStrictlySortedBy by_key objects.now }
    ensures { IsPlace key.now objects.now result }
{
    let first = first_part(key);
    objects.partition_point(|object| comes_before(object, key, first))
}

/// Whether an object under the key stands at the place.
fn stands_at(objects: &[Stored], place: usize, key: &str) -> bool
    ensures { IsTrue result ↔ StandsAt key.now objects.now place }
{
    match objects.get(place) {
        Some(object) => object.key.as_str() == key,
        None => false,
    }
}

/// The object under the key.
pub(crate) fn find<'a>(objects: &'a [Stored], key: &str) -> Option<&'a Blob>
    requires { IsStrictlySortedBy by_key objects.now }
    ensures { option_copied result ≡ object_in objects.now key.now }
{
    let place = place_of(objects, key);
    if stands_at(objects, place, key) {
        Some(&objects[place].bytes)
    } else {
        None
    }
}

/// Puts other bytes in the place of those of an object.
fn replace_at(objects: &mut Vec<Stored>, place: usize, key: &str, bytes: Blob)
    requires ordered { IsStrictlySortedBy by_key objects.old.items }
    requires keys { IsTrue (have_keys objects.old.items) }
    requires place { IsPlace key.now objects.old.items place }
    requires stands { StandsAt key.now objects.old.items place }
    ensures { IsUpdated key.now (Some bytes) objects.old.items objects.new.items }
{
    objects[place].bytes = bytes;
}

/// Adds an object at the place where its key would stand.
fn insert_at(objects: &mut Vec<Stored>, place: usize, object: Stored) -> Result<(), NoMemory>
    requires ordered { IsStrictlySortedBy by_key objects.old.items }
    requires keys { IsTrue (have_keys objects.old.items) }
    requires key { IsKey object.key }
    requires place { IsPlace object.key objects.old.items place }
    requires free { StandsAt object.key objects.old.items place → ⊥ }
    ensures ok { OnOk result
        (IsUpdated object.key (Some object.bytes) objects.old.items objects.new.items) }
    ensures err { OnErr result (objects.new.items ≡ objects.old.items) }
{
    objects.insert(place, object)?;
    Ok(())
}

/// Puts an object under the key. It shares the bytes.
pub(crate) fn put_in(
    alloc: Global,
    objects: &mut Vec<Stored>,
    key: &str,
    bytes: &Blob,
) -> Result<(), NoMemory>
    requires ordered { IsStrictlySortedBy by_key objects.old.items }
    requires keys { IsTrue (have_keys objects.old.items) }
    requires key { IsKey key.now }
    ensures ok { OnOk result
        (IsUpdated key.now (Some bytes.now) objects.old.items objects.new.items) }
    ensures err { OnErr result (objects.new.items ≡ objects.old.items) }
{
    let place = place_of(objects.as_slice(), key);
    let kept = bytes.copy()?;
    if stands_at(objects.as_slice(), place, key) {
        replace_at(objects, place, key, kept);
        return Ok(());
    }
    let key = Text::from_str(alloc, key)?;
    insert_at(objects, place, Stored { key, bytes: kept })
}

/// Takes away the object under the key.
pub(crate) fn remove_from(objects: &mut Vec<Stored>, key: &str)
    requires ordered { IsStrictlySortedBy by_key objects.old.items }
    requires keys { IsTrue (have_keys objects.old.items) }
    ensures { IsUpdated key.now None objects.old.items objects.new.items }
{
    let place = place_of(objects.as_slice(), key);
    if stands_at(objects.as_slice(), place, key) {
        objects.remove(place);
    }
}

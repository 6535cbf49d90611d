//! Pages of a bucket in memory. The names of the whole bucket are the first parts of keys, and objects are kept in
//! their order, so that equal names are neighbours and each is listed once.

ghost use Rattle.std.specs.Prelude.{◌≡◌, ◌++◌, ◌∷◌, [], IfOk, option_map};
ghost use Rattle.std.specs.String.{string_bytes};
ghost use Rattle.wire_bytes.specs.Files.{slash};
ghost use Rattle.std.specs.List.Sorted.{IsStrictlySortedBy};
ghost use Rattle.bucket_core.specs.Pages.{IsPage};
ghost use Rattle.bucket_core.specs.Stored.{text_after, name_of, names_of, picked, by_key, object_in, IsStart};

use crate::objects::{Stored, first_part, place_of};
use base::{List, NoMemory};
use label_sets::{Text, TextList};
use std::alloc::Global;

/// What follows a text in another that begins with it.
fn rest_after<'a>(text: &str, key: &'a str) -> Option<&'a str>
    ensures { option_map (λ rest. rest.now) result ≡ text_after text.now key.now }
{
    key.strip_prefix(text)
}

/// What follows the slash at the front.
fn after_slash(key: &str) -> Option<&str>
    ensures { option_map (λ rest. rest.now) result ≡ text_after (slash ∷ []) key.now }
{
    key.strip_prefix('/')
}

/// What follows a folder and a slash in a key.
fn after_folder<'a>(within: &str, key: &'a str) -> Option<&'a str>
    ensures { option_map (λ rest. rest.now) result ≡ text_after (within.now ++ slash ∷ []) key.now }
{
    match rest_after(within, key) {
        Some(rest) => after_slash(rest),
        None => None,
    }
}

/// The name under which a folder, or the whole bucket, lists a key.
fn name_in<'a>(within: &str, key: &'a str) -> Option<&'a str>
    ensures { option_map (λ name. name.now) result ≡ name_of within.now key.now }
{
    if within.is_empty() {
        return Some(first_part(key));
    }
    after_folder(within, key)
}

/// The names of objects in their order that are greater than `after`, each once and at most `limit` of them.
fn pick_names(
    alloc: Global,
    objects: &[Stored],
    within: &str,
    after: &str,
    limit: usize,
) -> Result<TextList, NoMemory>
    ensures { IfOk result
        (λ names. names ≡ picked after.now limit (names_of within.now objects.now)) }
{
    let mut names = List::new(alloc);
    let mut last = after;
    for object in objects {
        let Some(name) = name_in(within, object.key.as_str()) else {
            break;
        };
        if last < name {
            if names.len() >= limit {
                break;
            }
            names.push(Text::from_str(alloc, name)?)?;
            last = name;
        }
    }
    Ok(names)
}

/// The key of a name in a folder.
fn folder_key(alloc: Global, within: &str, name: &str) -> Result<String, NoMemory>
    ensures { IfOk result (λ key. string_bytes key ≡ within.now ++ slash ∷ name.now) }
{
    let mut key = String::from_str(alloc, within)?;
    key.push_str("/")?;
    key.push_str(name)?;
    Ok(key)
}

/// The place behind which a page is picked.
fn start_of(alloc: Global, objects: &[Stored], within: &str, after: &str) -> Result<usize, NoMemory>
    requires { IsStrictlySortedBy by_key objects.now }
    ensures { IfOk result (IsStart within.now after.now objects.now) }
{
    if within.is_empty() {
        return Ok(place_of(objects, after));
    }
    let key = folder_key(alloc, within, after)?;
    Ok(place_of(objects, key.as_str()))
}

/// A page of the names of a folder, or of the whole bucket.
pub(crate) fn page_of(
    alloc: Global,
    objects: &[Stored],
    within: &str,
    after: &str,
    limit: usize,
) -> Result<TextList, NoMemory>
    requires { IsStrictlySortedBy by_key objects.now }
    ensures { IfOk result
        (λ names. IsPage (object_in objects.now) within.now after.now limit names) }
{
    let start = start_of(alloc, objects, within, after)?;
    pick_names(alloc, &objects[start..], within, after, limit)
}

ghost use Rattle.std.specs.Prelude.{◌≡◌, [], ◌∷◌, ◌++◌, drop, IsTrue, IfOk, IfSome, MatchOption, OnOk};
ghost use Rattle.block_keys.specs.Keys.{is_lawful_key};
ghost use Rattle.cleaner.specs.Objects.{data_named, data_keys, have_lawful_keys, only_data as only_data_of};

use base::NoMemory;
use block_keys::{Key, text_in_block};
use label_sets::Text;
use std::alloc::Global;
use std::collections::VecDeque;
use ulid_core::Ulid;

/// Adds the keys of the segments and of the index among the names of a block.
pub(crate) fn add_data_keys(
    alloc: Global,
    ulid: Ulid,
    keys: &mut VecDeque<Key>,
    names: &[Text],
) -> Result<(), NoMemory>
    requires { IsTrue (have_lawful_keys keys.old.items) }
    ensures added { OnOk result (keys.new.items ≡ keys.old.items ++ data_keys ulid names.now) }
    ensures lawful { IsTrue (have_lawful_keys keys.new.items) }
{
    for name in names {
        if let Some(key) = data_key(alloc, ulid, name.as_str())? {
            keys.push_back(key)?;
        }
    }
    Ok(())
}

/// The first object, if there is one.
pub(crate) fn first_of(objects: &VecDeque<Key>) -> Option<Key>
    ensures { MatchOption result (objects.now.items ≡ [])
        (λ object. objects.now.items ≡ object ∷ drop 1 objects.now.items) }
{
    objects.front().copied()
}

/// The key of the block's object with that name, if it is a segment or the index.
fn data_key(alloc: Global, ulid: Ulid, name: &str) -> Result<Option<Key>, NoMemory>
    ensures value { IfOk result (λ key. key ≡ data_named ulid name.now) }
    ensures lawful { IfOk result (λ key. IfSome key (λ k. IsTrue (is_lawful_key k))) }
{
    let text = text_in_block(alloc, ulid, name)?;
    Ok(only_data(Key::read(text.as_str()).ok()))
}

fn only_data(key: Option<Key>) -> Option<Key>
    ensures { result ≡ only_data_of key }
{
    match key {
        Some(Key::Segment(_, _) | Key::Index(_)) => key,
        _ => None,
    }
}

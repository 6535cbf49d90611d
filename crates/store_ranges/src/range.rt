ghost use Rattle.std.specs.Prelude.{◌≡◌};
ghost use Rattle.block_keys.specs.Keys.{key_kind, key_number};

use block_keys::Key;
use std::hash::{Hash, Hasher};

/// A range of an object.
#[derive(Clone, Copy, Debug, PartialEq, Eq)]
pub(crate) struct Range {
    pub(crate) key: Key,
    pub(crate) from: u64,
    pub(crate) len: u64,
}

impl Hash for Range {
    ghost use Rattle.std.specs.Prelude.{◌++◌, ◌/◌, ◌%◌};
    ghost use Rattle.std.specs.Hash as fed;
    ghost use Rattle.std.specs.Cmp.Rules.{hashing};
    ghost use Rattle.std.proofs.Common.{rules};
    ghost use Rattle.ulid_core.specs.Limits.{entropy_count};
    ghost use Rattle.block_keys.specs.Keys.{key_kind, key_number, key_ulid};

    ghost hash_input = { λ range. fed.u64 (key_ulid range.key / entropy_count)
        ++ fed.u128 (key_ulid range.key % entropy_count)
        ++ fed.u8 (key_kind range.key) ++ fed.u32 (key_number range.key)
        ++ fed.u64 range.from ++ fed.u64 range.len };

    ghost respects_eq = { Prim.search (hashing, rules) };

    fn hash<H: Hasher>(&self, state: &mut H) {
        self.key.ulid().time().hash(state);
        self.key.ulid().entropy().hash(state);
        kind_of(self.key).hash(state);
        number_of(self.key).hash(state);
        self.from.hash(state);
        self.len.hash(state);
    }
}

/// The kind of a key's object.
fn kind_of(key: Key) -> u8
    ensures { result ≡ key_kind key }
{
    match key {
        Key::Segment(_, _) => 0,
        Key::Mark(_) => 1,
        Key::Index(_) => 2,
        Key::Meta(_) => 3,
    }
}

/// The number of a segment, and 0 of another object.
fn number_of(key: Key) -> u32
    ensures { result ≡ key_number key }
{
    match key {
        Key::Segment(_, number) => number,
        Key::Mark(_) | Key::Index(_) | Key::Meta(_) => 0,
    }
}

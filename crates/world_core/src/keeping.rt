//! When a journal is full: by its entries, or by the bytes that they keep, so that a run that never ends is stopped
//! before it has taken all memory. Bytes that entries share are counted for each.

ghost use Rattle.std.specs.Prelude.{◌≡◌, ◌-◌, ◌^◌, ℕ, min, length, sum_by};
ghost use Rattle.std.specs.List.{AllByRecursion};
ghost use Rattle.std.specs.Str.{IsUtf8};
ghost use Rattle.base.specs.Grammar.{IsBytes};
ghost use Rattle.world_core.specs.Keeping.{bytes_put, bytes_told};
ghost use Rattle.world_core.specs.Operations.{PutsBytes, ShowsBytes};

use crate::{Op, Reply};
use label_sets::Text;

/// How many entries a journal takes.
pub(crate) const MAX_ENTRIES: u64 = 1_048_576;

/// A journal that keeps as many bytes takes no more entries.
pub(crate) const MAX_KEPT: u64 = 1_073_741_824;

/// The bytes that an operation brings into the journal.
pub(crate) fn put_size(op: &Op) -> u64
    ensures size { result ≡ bytes_put op.now }
    ensures bytes { PutsBytes op.now }
{
    match op {
        Op::Put(_, bytes) => bytes_size(bytes.bytes()),
        _ => 0,
    }
}

/// The bytes that a reply brings into the journal, or the greatest number where they are more.
pub(crate) fn told_size(reply: &Reply) -> u64
    ensures size { result ≡ min (bytes_told reply.now) (2 ^ 64 - 1) }
    ensures bytes { ShowsBytes reply.now }
{
    match reply {
        Reply::Found(bytes) => bytes_size(bytes.bytes()),
        Reply::Names(names) => names_size(names.members()),
        _ => 0,
    }
}

fn bytes_size(bytes: &[u8]) -> u64
    ensures size { result ≡ length bytes.now }
    ensures bytes { IsBytes bytes.now }
{
    bytes.len() as u64
}

fn name_size(name: &str) -> u64
    ensures size { result ≡ length name.now }
    ensures utf8 { IsUtf8 name.now }
{
    name.len() as u64
}

fn names_size(names: &[Text]) -> u64
    ensures size { result ≡ min (sum_by length names.now) (2 ^ 64 - 1) }
    ensures utf8 { AllByRecursion IsUtf8 names.now }
{
    let mut size = 0u64;
    for name in names {
        size = size.saturating_add(name_size(name.as_str()));
    }
    size
}

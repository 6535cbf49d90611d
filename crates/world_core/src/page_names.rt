//! The names of a page, on which walks of pages go on.
ghost use Rattle.std.specs.Prelude.{◌≡◌, ◌<◌, ◌^◌, ◌++◌, nat_lt, length, Some, IfOk, OnOk, IsTrue};
ghost use Rattle.std.specs.Option.{option_copied};
ghost use Rattle.base.specs.Order.{are_in_order_after, comes_after};
ghost use Rattle.label_sets.specs.Labels.{compare_texts};
ghost use Rattle.world_core.specs.Walks.{last_listed, ulids_in};

use base::{NoMemory, TryCopy};
use label_sets::Text;
use std::collections::VecDeque;
use ulid_core::Ulid;

/// A walk of pages that has listed so many names, and has not come to its end, is given up.
pub const MOST_LISTED: u64 = 1_000_000;

/// Tells whether each name is greater than the one before it, where the first one may have one before it too.
pub fn ascends(before: Option<&Text>, names: &[Text]) -> bool
    ensures { result
        ≡ are_in_order_after (comes_after compare_texts) (option_copied before.entry) names.now }
{
    let mut last = before;
    for name in names {
        if !is_after(last, name) {
            return false;
        }
        last = Some(name);
    }
    true
}

fn is_after(before: Option<&Text>, name: &Text) -> bool
    ensures { result ≡ comes_after compare_texts (option_copied before.entry) name.now }
{
    match before {
        Some(before) => before.as_str() < name.as_str(),
        None => true,
    }
}

/// Tells whether a page of so many names has fewer than it was asked for.
pub fn is_short(count: usize, limit: u32) -> bool
    ensures value { result ≡ nat_lt count limit }
    ensures few { IsTrue result → count < 2 ^ 32 }
{
    (count as u64) < u64::from(limit)
}

/// Adds the ULIDs among the names, in their order. Every other name is passed over.
pub fn add_ulids(ulids: &mut VecDeque<Ulid>, names: &[Text]) -> Result<(), NoMemory>
    ensures { OnOk result (ulids.new.items ≡ ulids.old.items ++ ulids_in names.now) }
{
    for name in names {
        if let Ok(ulid) = Ulid::read(name.as_str()) {
            ulids.push_back(ulid)?;
        }
    }
    Ok(())
}

/// A copy of the last name.
pub fn last_name(names: &[Text]) -> Result<Text, NoMemory>
    requires { 0 < length names.now }
    ensures { IfOk result (λ name. last_listed names.now ≡ Some name) }
{
    names[names.len() - 1].copy()
}

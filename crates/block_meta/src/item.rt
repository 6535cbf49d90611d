//! Lists of a meta, and what stands in them.

ghost use Rattle.std.specs.Prelude.{◌≡◌, ℕ, List, Ok, IfOk, OnOk, All};
ghost use Rattle.base.specs.Reading.{Gives};
ghost use Rattle.serde_json.specs.Data.{array};
ghost use Rattle.serde_json.specs.View.{view, items_view};
ghost use Rattle.block_meta.specs.declared.refusal.MetaRefusal.TheVariants.{NoMemory};
ghost use Rattle.block_meta.specs.Members.{each, list_of};
ghost use Rattle.block_meta.specs.MetaValue.{items_value};

use crate::MetaRefusal;
use crate::json_values::{items, member};
use base::List;
use serde_json::Value;
use std::alloc::{AllocError, Global};

/// What may stand in a list of a meta.
pub(crate) trait Item: Drop {
    ghost use Rattle.std.specs.Prelude.{◌≡◌, ℕ, List, Ok, IfOk, OnOk};
    ghost use Rattle.serde_json.specs.Data.{Data};
    ghost use Rattle.block_meta.specs.Members.{Read};
    ghost use Rattle.base.specs.Reading.{Gives};
    ghost use Rattle.serde_json.specs.View.{view};
    ghost use Rattle.block_meta.specs.declared.refusal.MetaRefusal.TheVariants.{NoMemory};

    ghost reads: { List ℕ → Data → Read Self };

    ghost written: { Self → Data };

    /// Holds of each item of the type: its numbers fit.
    ghost fits: { Self → Type 0 };

    /// Reads an item of the list of this name.
    fn read(alloc: Global, value: &Value, list: &str) -> Result<Self, MetaRefusal>
        ensures { Gives NoMemory (λ x. x) result (reads list.now (view value.now)) };

    /// The item as it is written. It reads as that item again.
    fn write(&self, alloc: Global) -> Result<Value, AllocError>
        ensures value { IfOk result (λ v. view v ≡ written self.now) }
        ensures again { OnOk result ((list : List ℕ)
            → reads list (written self.now) ≡ Ok self.now) }
        ensures fits { OnOk result (fits self.now) };
}

/// The list of that name, empty where it is absent.
#[tactic(auto, unfolding(crate::specs::Members::list_of))]
pub(crate) fn read_list<T: Item>(
    alloc: Global,
    within: &Value,
    name: &str,
) -> Result<List<T>, MetaRefusal>
    ensures { Gives NoMemory (λ list. list) result (list_of T.reads name.now (view within.now)) }
{
    match member(within, name) {
        Some(value) => read_items(alloc, items(alloc, value, name)?, name),
        None => Ok(List::new(alloc)),
    }
}

fn read_items<T: Item>(
    alloc: Global,
    values: &Vec<Value>,
    list: &str,
) -> Result<List<T>, MetaRefusal>
    ensures { Gives NoMemory (λ found. found) result
        (each (T.reads list.now) (items_view values.now.items)) }
{
    let mut found = List::new(alloc);
    for value in values {
        found.push(T::read(alloc, value, list)?)?;
    }
    Ok(found)
}

/// A list as it is written. Its items read as that list again.
pub(crate) fn write_list<T: Item>(alloc: Global, list: &List<T>) -> Result<Value, AllocError>
    ensures value { IfOk result (λ v. view v ≡ array (items_value T.written list.now)) }
    ensures again { OnOk result ((name : List ℕ)
        → each (T.reads name) (items_value T.written list.now) ≡ Ok list.now) }
    ensures fits { OnOk result (All T.fits list.now) }
{
    Ok(Value::Array(write_items(alloc, list.members())?))
}

fn write_items<T: Item>(alloc: Global, items: &[T]) -> Result<Vec<Value>, AllocError>
    ensures value { IfOk result (λ made. items_view made.items ≡ items_value T.written items.now) }
    ensures again { OnOk result (All (λ x. (name : List ℕ) → T.reads name (T.written x) ≡ Ok x)
        items.now) }
    ensures fits { OnOk result (All T.fits items.now) }
{
    let mut made = Vec::new(alloc);
    for item in items {
        made.push(item.write(alloc)?)?;
    }
    Ok(made)
}

//! The list type of public types and calls. Contracts see it as the list of its members, where they would see a `Vec`
//! as a record; hot loops go over slices of it.

ghost use Rattle.std.specs.Prelude.{◌≡◌, ◌↔◌, ◌≤◌, IsTrue, List, [], ◌∷◌, ◌++◌, length, drop, slice_get, IfOk, OnOk, OnErr};
ghost use Rattle.std.specs.Option.{option_copied};

use crate::{NoMemory, TryCopy};
use std::alloc::Global;
use std::marker::Model;

/// A list of values, which grows at its end.
#[derive(Drop)]
pub struct List<T: Drop> {
    items: Vec<T>,
}

impl<T: Drop> Model for List<T> {
    ghost Value = { List T };

    ghost view = { λ l. l.items.items };
}

impl<T: Drop> List<T> {
    /// The empty list. It takes no memory.
    pub fn new(alloc: Global) -> Self
        ensures { result ≡ [] }
    {
        List {
            items: Vec::new(alloc),
        }
    }

    /// The list of a vector's elements.
    pub fn from_vec(items: Vec<T>) -> Self
        ensures { result ≡ items.items }
    {
        List { items }
    }

    /// The members as a vector.
    pub fn into_vec(self) -> Vec<T>
        ensures { result.items ≡ self }
    {
        self.items
    }

    /// Whether there is no member.
    pub fn is_empty(&self) -> bool
        ensures { IsTrue result ↔ (self.now ≡ []) }
    {
        self.items.is_empty()
    }

    /// How many members there are.
    pub fn len(&self) -> usize
        ensures { result ≡ length self.now }
    {
        self.items.len()
    }

    /// The member at a place, which counts from 0.
    pub fn get(&self, place: usize) -> Option<&T>
        ensures { option_copied result ≡ slice_get self.now place }
    {
        self.items.get(place)
    }

    /// The members in order, as a slice.
    pub fn members(&self) -> &[T]
        ensures { result.now ≡ self.now }
    {
        self.items.as_slice()
    }

    /// Adds a value at the end.
    pub fn push(&mut self, item: T) -> Result<(), NoMemory>
        ensures ok { OnOk result (self.new ≡ self.old ++ item ∷ []) }
        ensures err { OnErr result (self.new ≡ self.old) }
    {
        self.items.push(item)?;
        Ok(())
    }
}

impl<T: TryCopy> TryCopy for List<T> {
    fn copy(&self) -> Result<Self, NoMemory> {
        let mut made = Vec::with_capacity(*self.items.allocator(), self.items.len())?;
        for item in self.members() {
            made.push(item.copy()?)?;
        }
        Ok(List::from_vec(made))
    }
}

/// The members of a slice behind so many, of which there are no fewer.
pub fn members_behind<T>(members: &[T], count: usize) -> &[T]
    requires { count ≤ length members.now }
    ensures { result.now ≡ drop count members.now }
{
    &members[count..]
}

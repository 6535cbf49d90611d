//! Sets of ULIDs, by which lists of them are put in order, each once. And the sources of several together.
ghost use Rattle.std.specs.Prelude.{◌≡◌, fold, IfOk, OnOk};
ghost use Rattle.std.specs.BTreeSet.{insert_key};
ghost use Rattle.std.specs.Ordering.{nat_cmp};
ghost use Rattle.std.specs.List.{flat_map};
ghost use Rattle.std.specs.List.Sorted.{IsStrictlyIncreasing};
ghost use Rattle.block_meta.specs.Lawful.{ascending};

use crate::Meta;
use base::NoMemory;
use std::alloc::Global;
use std::collections::BTreeSet;
use ulid_core::{Ulid, UlidList};

/// Adds these to a set.
pub(crate) fn add_all(set: &mut BTreeSet<Ulid>, ulids: &[Ulid]) -> Result<(), NoMemory>
    ensures { OnOk result (set.new.keys ≡ fold (insert_key nat_cmp) set.old.keys ulids.now) }
{
    for ulid in ulids {
        set.insert(*ulid)?;
    }
    Ok(())
}

/// The members of a set, ascending, each once.
pub(crate) fn ulids_in(alloc: Global, set: &BTreeSet<Ulid>) -> Result<UlidList, NoMemory>
    ensures value { IfOk result (λ made. made ≡ set.now.keys) }
    ensures increasing { IfOk result (λ made. IsStrictlyIncreasing made) }
{
    let members: Vec<Ulid> = set.iter().copied().collect(alloc)?;
    Ok(UlidList::from_vec(members))
}

/// What is made of uploads, and names them.
pub trait HasSources {
    ghost use Rattle.std.specs.Prelude.{◌≡◌, List, ℕ};

    ghost sources: { Self → List ℕ };

    /// The uploads that it is made of.
    fn sources(&self) -> &[Ulid]
        ensures { result.now ≡ sources self.now };
}

impl HasSources for Meta {
    ghost sources = { λ meta. meta.sources };

    fn sources(&self) -> &[Ulid] {
        self.sources.members()
    }
}

/// The sources of all, ascending, each once.
pub fn union_of_sources<T: HasSources>(alloc: Global, all: &[T]) -> Result<UlidList, NoMemory>
    ensures value { IfOk result (λ made. made ≡ ascending (flat_map T.sources all.now)) }
    ensures increasing { IfOk result (λ made. IsStrictlyIncreasing made) }
{
    ulids_in(alloc, &set_of_sources(alloc, all)?)
}

fn set_of_sources<T: HasSources>(alloc: Global, all: &[T]) -> Result<BTreeSet<Ulid>, NoMemory>
    ensures { IfOk result (λ set. set.keys ≡ ascending (flat_map T.sources all.now)) }
{
    let mut set = BTreeSet::new(alloc);
    for one in all {
        add_all(&mut set, one.sources())?;
    }
    Ok(set)
}

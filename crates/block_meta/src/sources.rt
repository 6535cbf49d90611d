//! The shipped blocks whose samples a block holds, through any number of compactions. They are kept ascending and each
//! once, whatever the text had, so that it is soon told whether one block's sources lie within another's.

ghost use Rattle.std.specs.Prelude.{◌≡◌, ◌<◌, ◌^◌, IfOk, OnOk};
ghost use Rattle.std.specs.List.Sorted.{IsStrictlyIncreasing};
ghost use Rattle.base.specs.Reading.{Gives};
ghost use Rattle.serde_json.specs.View.{view};
ghost use Rattle.block_meta.specs.declared.refusal.MetaRefusal.TheVariants.{NoMemory as WithoutMemory};
ghost use Rattle.block_meta.specs.Lawful.{ascending};
ghost use Rattle.ulid_core.specs.UlidText.{IsUlidText, text_of};
ghost use Rattle.block_meta.specs.Members.{ulid_of};
ghost use Rattle.block_meta.specs.MetaReading.{sources_of};
ghost use Rattle.block_meta.specs.MetaValue.{ulid_value};

use crate::MetaRefusal;
use crate::item::{Item, read_list};
use crate::json_values::ulid;
use crate::ulid_sets::{add_all, ulids_in};
use base::NoMemory;
use serde_json::Value;
use std::alloc::{AllocError, Global};
use std::collections::BTreeSet;
use ulid_core::{Ulid, UlidList};

impl Item for Ulid {
    ghost reads = { ulid_of };

    ghost written = { ulid_value };

    ghost fits = { λ ulid. ulid < 2 ^ 128 };

    fn read(alloc: Global, value: &Value, list: &str) -> Result<Self, MetaRefusal> {
        ulid(alloc, value, list)
    }

    #[tactic(auto, using(crate::proofs::Again::ulid_again))]
    fn write(&self, alloc: Global) -> Result<Value, AllocError> {
        write_ulid(alloc, *self)
    }
}

/// The member `sources`: ULIDs in any order, empty where it is absent.
#[tactic(auto, unfolding(crate::specs::MetaReading::sources_of))]
pub(crate) fn read_sources(alloc: Global, compaction: &Value) -> Result<UlidList, MetaRefusal>
    ensures gives { Gives WithoutMemory (λ sources. sources) result
        (sources_of (view compaction.now)) }
    ensures increasing { IfOk result (λ sources. IsStrictlyIncreasing sources) }
{
    let listed: UlidList = read_list(alloc, compaction, "sources")?;
    Ok(ascending(alloc, listed.members())?)
}

/// The ULIDs ascending, each once.
fn ascending(alloc: Global, listed: &[Ulid]) -> Result<UlidList, NoMemory>
    ensures value { IfOk result (λ made. made ≡ ascending listed.now) }
    ensures increasing { IfOk result (λ made. IsStrictlyIncreasing made) }
{
    ulids_in(alloc, &set_of(alloc, listed)?)
}

fn set_of(alloc: Global, listed: &[Ulid]) -> Result<BTreeSet<Ulid>, NoMemory>
    ensures { IfOk result (λ set. set.keys ≡ ascending listed.now) }
{
    let mut set = BTreeSet::new(alloc);
    add_all(&mut set, listed)?;
    Ok(set)
}

#[tactic(auto, unfolding(crate::specs::MetaValue::ulid_value), using(crate::proofs::Again::ulid_again))]
pub(crate) fn write_ulid(alloc: Global, ulid: Ulid) -> Result<Value, AllocError>
    ensures value { IfOk result (λ v. view v ≡ ulid_value ulid) }
    ensures written { OnOk result (IsUlidText (text_of ulid) ulid) }
{
    let text = ulid.to_string(alloc).map_err(|_| AllocError)?;
    Ok(Value::String(text))
}

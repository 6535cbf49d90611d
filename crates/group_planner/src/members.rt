ghost use Rattle.std.specs.Prelude.{◌≡◌, IfOk};
ghost use Rattle.group_planner.specs.Members.{ulids_of as ulids_of_all};

use base::{List, NoMemory};
use block_meta::Meta;
use std::alloc::Global;
use ulid_core::UlidList;

/// Metas of blocks.
pub type MetaList = List<Meta>;

/// Lists of ULIDs.
pub type UlidListList = List<UlidList>;

pub(crate) fn ulids_of(alloc: Global, metas: &[Meta]) -> Result<UlidList, NoMemory>
    ensures { IfOk result (λ made. made ≡ ulids_of_all metas.now) }
{
    let mut made = UlidList::new(alloc);
    for meta in metas {
        made.push(meta.ulid)?;
    }
    Ok(made)
}

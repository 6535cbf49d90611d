ghost use Rattle.std.specs.Prelude.{◌≡◌, option_map, IfOk};
ghost use Rattle.block_meta.specs.MetaFields.{fields_of, mark_fields_of};
ghost use Rattle.block_meta.specs.OfBlocks.{block_meta, block_mark};

use crate::{DeletionMark, Meta, MetaRefusal};
use base::NoMemory;
use std::alloc::Global;
use ulid_core::Ulid;

/// The meta of a block, and none where the bytes are no meta or another block's.
pub fn meta_of(alloc: Global, ulid: Ulid, bytes: &[u8]) -> Result<Option<Meta>, NoMemory>
    ensures { IfOk result (λ meta. option_map fields_of meta ≡ block_meta ulid bytes.now) }
{
    let meta = match Meta::read(alloc, bytes) {
        Ok(meta) => meta,
        Err(MetaRefusal::NoMemory) => return Err(NoMemory),
        Err(_) => return Ok(None),
    };
    if meta.ulid == ulid {
        Ok(Some(meta))
    } else {
        Ok(None)
    }
}

/// The deletion mark of a block, and none where the bytes are no mark or another block's.
pub fn mark_of(alloc: Global, ulid: Ulid, bytes: &[u8]) -> Result<Option<DeletionMark>, NoMemory>
    ensures { IfOk result (λ mark. option_map mark_fields_of mark ≡ block_mark ulid bytes.now) }
{
    let mark = match DeletionMark::read(alloc, bytes) {
        Ok(mark) => mark,
        Err(MetaRefusal::NoMemory) => return Err(NoMemory),
        Err(_) => return Ok(None),
    };
    if mark.id == ulid {
        Ok(Some(mark))
    } else {
        Ok(None)
    }
}

//! The block that is uploaded.
ghost use Rattle.std.specs.Prelude.{ℕ, IfOk};
ghost use Rattle.block_keys.specs.Blocks.{IsBlock};

use crate::played::Played;
use base::NoMemory;
use block_keys::{Key, Object, ObjectList};
use shipper::{UploadEnd, run_upload};
use std::alloc::Global;
use ulid_core::Ulid;
use wire_bytes::Blob;
use world_core::Driven;

/// Uploads the block A, and stops after so many operations if it is told to.
pub(crate) fn uploaded(alloc: Global, stop: Option<u32>, hand: &mut Played) -> Driven<UploadEnd> {
    match block(alloc) {
        Ok(objects) => run_upload(objects, stop, hand),
        Err(NoMemory) => Driven::NoMemory,
    }
}

fn block(alloc: Global) -> Result<ObjectList, NoMemory>
    ensures { IfOk result (λ objects. (ulid : ℕ) × IsBlock ulid objects) }
{
    block_of(alloc, Ulid::from_parts(0, 10))
}

/// A block of one segment.
fn block_of(alloc: Global, ulid: Ulid) -> Result<ObjectList, NoMemory>
    ensures { IfOk result (IsBlock ulid) }
{
    let mut objects = ObjectList::new(alloc);
    objects.push(Object {
        key: Key::Segment(ulid, 1),
        bytes: Blob::from_bytes(alloc, b"segment")?,
    })?;
    objects.push(Object {
        key: Key::Index(ulid),
        bytes: Blob::from_bytes(alloc, b"index")?,
    })?;
    objects.push(Object {
        key: Key::Meta(ulid),
        bytes: Blob::from_bytes(alloc, b"meta")?,
    })?;
    Ok(objects)
}

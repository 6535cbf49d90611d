//! A block's files under the keys by which they are uploaded. The meta is the last, so that a block whose meta stands
//! is complete, and an upload that was interrupted leaves a block that nobody reads.

ghost use Rattle.std.specs.Prelude.{◌≡◌, ◌+◌, ◌≤◌, [], ◌∷◌, ◌++◌, All, length, vec_len, IfOk, OnOk};
ghost use Rattle.block_keys.specs.Keys.{segment_limit};
ghost use Rattle.block_meta.specs.Bounds.{HasFittingNumbers};
ghost use Rattle.block_meta.specs.MetaFields.{fields_of};
ghost use Rattle.block_meta.specs.MetaValue.{meta_text};
ghost use Rattle.block_meta.specs.Built.{objects_of, segment_objects};
ghost use Rattle.block_keys.specs.Blocks.{IsSegmentOf, IsBlock};

use crate::BlockFiles;
use base::NoMemory;
use block_keys::{Key, Object, ObjectList};
use std::alloc::Global;
use ulid_core::Ulid;
use wire_bytes::Blob;

/// The objects of a block in the order in which they are uploaded: segments ascending, index, meta.
#[tactic(auto, using(crate::proofs::Blocks::block_of), unfolding(crate::specs::Built::objects_of))]
pub fn files_objects(alloc: Global, files: BlockFiles) -> Result<ObjectList, NoMemory>
    ensures block { IfOk result (IsBlock files.meta.ulid) }
    ensures objects { IfOk result (λ objects. objects ≡ objects_of files.meta.ulid
        files.segments files.index (meta_text (fields_of files.meta))) }
    ensures numbers { OnOk result (HasFittingNumbers (fields_of files.meta)) }
{
    let BlockFiles {
        meta,
        index,
        segments,
    } = files;
    let ulid = meta.ulid;
    let text = meta.write(alloc);
    drop(meta);
    let text = text?;
    let mut objects = segment_objects(alloc, ulid, segments.into_vec())?;
    objects.push(Object {
        key: Key::Index(ulid),
        bytes: index,
    })?;
    objects.push(Object {
        key: Key::Meta(ulid),
        bytes: text,
    })?;
    Ok(objects)
}

#[tactic(auto, using(crate::proofs::Blocks::segments_pushed), unfolding(crate::specs::Built::segment_objects))]
fn segment_objects(alloc: Global, ulid: Ulid, segments: Vec<Blob>) -> Result<ObjectList, NoMemory>
    requires { vec_len segments ≤ segment_limit }
    ensures keys { IfOk result (λ objects. All (λ object. IsSegmentOf ulid object.key) objects) }
    ensures count { IfOk result (λ objects. length objects ≡ vec_len segments) }
    ensures value { IfOk result (λ objects. objects ≡ segment_objects ulid 1 segments.items) }
{
    let mut objects = ObjectList::new(alloc);
    let mut number = 0u32;
    for bytes in segments {
        number += 1;
        push_segment(&mut objects, ulid, number, bytes)?;
    }
    Ok(objects)
}

#[tactic(auto, using(crate::proofs::Blocks::all_pushed))]
fn push_segment(
    objects: &mut ObjectList,
    ulid: Ulid,
    number: u32,
    bytes: Blob,
) -> Result<(), NoMemory>
    requires least { 1 ≤ number }
    requires most { number ≤ segment_limit }
    requires before { All (λ object. IsSegmentOf ulid object.key) objects.old }
    ensures keys { OnOk result (All (λ object. IsSegmentOf ulid object.key) objects.new) }
    ensures count { OnOk result (length objects.new ≡ length objects.old + 1) }
    ensures value { OnOk result (objects.new
        ≡ objects.old ++ record { key = Key.Segment ulid number; bytes = bytes } ∷ []) }
{
    objects.push(Object {
        key: Key::Segment(ulid, number),
        bytes,
    })?;
    Ok(())
}

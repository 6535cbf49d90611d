//! The files of a checked block as they are shipped.
ghost use Rattle.std.specs.Prelude.{◌≡◌, ◌++◌, ◌≤◌, ℕ, List, [], ◌∷◌, length, map, take, IfOk, OnOk};
ghost use Rattle.std.specs.List.{AllByRecursion};
ghost use Rattle.base.specs.Grammar.{IsBytes};
ghost use Rattle.block_meta.specs.Built.{segment_objects};
ghost use Rattle.block_meta.specs.declared.block_files.BlockFiles.{BlockFiles};
ghost use Rattle.block_keys.specs.Keys.{IsLawfulKey, key_number, segment_limit};
ghost use Rattle.block_keys.specs.KeyText.{name_of, six_digits};
ghost use Rattle.block_meta.specs.MetaFields.{fields_of};
ghost use Rattle.block_content.specs.Shipped.{size_of, segment_name, sizes_of, names_of, shipped_meta, IsBehindSlash};

use base::{NoMemory, TryCopy};
use block_keys::Key;
use block_meta::{BlockFiles, FileSize, FileSizeList, Meta};
use label_sets::{LabelSet, Text, TextList};
use std::alloc::Global;
use ulid_core::Ulid;
use wire_bytes::Blob;

/// What stands behind the first slash of a text, or all of it where it has none.
fn behind_slash(text: &str) -> &str
    ensures { (before rest : List ℕ) → IsBehindSlash text.now before rest → result.now ≡ rest }
{
    match text.split_once('/') {
        Some((_, rest)) => rest,
        None => text,
    }
}

/// The name of a file within its block.
fn name_within(alloc: Global, key: Key) -> Result<Text, NoMemory>
    requires { IsLawfulKey key }
    ensures { IfOk result (λ name. name ≡ name_of key) }
{
    let text = key.text(alloc)?;
    Text::from_str(alloc, behind_slash(text.as_str()))
}

/// A file of a block as a meta lists it.
fn size_of(alloc: Global, key: Key, bytes: &[u8]) -> Result<FileSize, NoMemory>
    requires { IsLawfulKey key }
    ensures size { IfOk result (λ size. size
        ≡ size_of (record { key = key; bytes = bytes.now })) }
    ensures bytes { IsBytes bytes.now }
{
    Ok(FileSize {
        path: name_within(alloc, key)?,
        bytes: bytes.len() as u64,
    })
}

/// The segments and the index as a meta lists them.
#[tactic(auto, unfolding(crate::specs::Shipped::sizes_of))]
fn sizes_of(
    alloc: Global,
    ulid: Ulid,
    segments: &[Blob],
    index: &Blob,
) -> Result<FileSizeList, NoMemory>
    requires { length segments.now ≤ segment_limit }
    ensures sizes { IfOk result (λ sizes. sizes ≡ sizes_of ulid segments.now index.now) }
    ensures bytes { OnOk result (IsBytes index.now × AllByRecursion IsBytes segments.now) }
{
    let mut sizes = FileSizeList::new(alloc);
    for (place, segment) in segments.iter().enumerate() {
        let key = Key::Segment(ulid, place as u32 + 1);
        sizes.push(size_of(alloc, key, segment.bytes())?)?;
    }
    sizes.push(size_of(alloc, Key::Index(ulid), index.bytes())?)?;
    Ok(sizes)
}

/// The name of a segment's file.
fn segment_name(alloc: Global, ulid: Ulid, number: u32) -> Result<Text, NoMemory>
    requires { IsLawfulKey (Key.Segment ulid number) }
    ensures { IfOk result (λ name. name ≡ six_digits number) }
{
    let name = name_within(alloc, Key::Segment(ulid, number))?;
    Text::from_str(alloc, behind_slash(name.as_str()))
}

/// The names of the segments' files.
#[tactic(auto, unfolding(crate::specs::Shipped::names_of))]
fn names_of(alloc: Global, ulid: Ulid, segments: &[Blob]) -> Result<TextList, NoMemory>
    requires { length segments.now ≤ segment_limit }
    ensures { IfOk result (λ names. names ≡ names_of ulid segments.now) }
{
    let mut names = TextList::new(alloc);
    for place in 0..segments.len() {
        names.push(segment_name(alloc, ulid, place as u32 + 1)?)?;
    }
    Ok(names)
}

/// The meta of a block of these files as it is shipped with external labels.
#[tactic(auto, unfolding(crate::specs::Shipped::shipped_meta))]
fn shipped_meta(
    alloc: Global,
    meta: Meta,
    segments: &[Blob],
    index: &Blob,
    external: &LabelSet,
) -> Result<Meta, NoMemory>
    requires { length segments.now ≤ segment_limit }
    ensures meta { IfOk result (λ shipped. fields_of shipped
        ≡ shipped_meta meta segments.now index.now external.now) }
    ensures bytes { OnOk result (IsBytes index.now × AllByRecursion IsBytes segments.now) }
{
    let files = sizes_of(alloc, meta.ulid, segments, index)?;
    let segment_files = names_of(alloc, meta.ulid, segments)?;
    Ok(Meta {
        ulid: meta.ulid,
        min_time: meta.min_time,
        max_time: meta.max_time,
        series: meta.series,
        samples: meta.samples,
        chunks: meta.chunks,
        level: meta.level,
        sources: meta.sources,
        parents: meta.parents,
        labels: external.copy()?,
        resolution: 0,
        source: Text::from_str(alloc, "sidecar")?,
        files,
        segment_files,
    })
}

/// A block's files with the meta as it is shipped.
pub(crate) fn shipped_files(
    alloc: Global,
    files: BlockFiles,
    external: &LabelSet,
) -> Result<BlockFiles, NoMemory>
    ensures meta { IfOk result (λ shipped. fields_of shipped.meta
        ≡ shipped_meta files.meta files.segments files.index external.now) }
    ensures index { IfOk result (λ shipped. shipped.index ≡ files.index) }
    ensures segments { IfOk result (λ shipped. shipped.segments ≡ files.segments) }
    ensures bytes { OnOk result (IsBytes files.index × AllByRecursion IsBytes files.segments) }
{
    let BlockFiles {
        meta,
        index,
        segments,
    } = files;
    let meta = shipped_meta(alloc, meta, segments.members(), &index, external)?;
    Ok(BlockFiles {
        meta,
        index,
        segments,
    })
}

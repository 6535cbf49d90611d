//! The files of a block, each as it is read from a shelf.
ghost use Rattle.std.specs.Prelude.{◌≡◌, ◌⊎◌, ◌+◌, ◌≤◌, ℕ, Option, Some, Ok, Err, List, All, IfOk, IfErr, length, map, max, sum_by, false};
ghost use Rattle.std.specs.List.{flat_map};
ghost use Rattle.block_keys.specs.Keys.{IsLawfulKey, segment_limit};
ghost use Rattle.block_keys.specs.declared.key.Key.{Key};
ghost use Rattle.block_meta.specs.MetaFields.{fields_of};
ghost use Rattle.base.specs.Reading.{refused_as};
ghost use Rattle.block_content.specs.ContentReading.{index_at, refused_index};
ghost use Rattle.block_content.specs.declared.check_refusal.CheckRefusal.{CheckRefusal};
ghost use Rattle.bucket_core.specs.Causes.{file_failed};
ghost use Rattle.bucket_core.specs.Contents.{Contents};
ghost use Rattle.bucket_core.specs.Files.{file_limit, ShowsFile};
ghost use Rattle.block_loading.specs.Loading.{limit_of, load_limit, file_number, greatest, last_segment, IsOfText, NamesLast, StopsAt};
ghost use Rattle.block_loading.specs.LoadReading.{Loads, LoadsIndex, KeepsShelf, AsksFile, AsksSegments, IfRefused, RefusesFile, was_fault, refused_block, refused_meta, file_in, file_at, meta_at, index_in, segment_at, segments_at};

use crate::LoadRefusal;
use block_content::{CheckRefusal, read_index};
use block_keys::{Key, SEGMENT_LIMIT};
use block_meta::{BlobList, Meta, MetaRefusal};
use bucket_core::{FILE_LIMIT, Shelf, ShelfAnswer};
use index_parts::ChunkPlace;
use index_v2::LentSeries;
use std::alloc::Global;
use ulid_core::Ulid;
use wire_bytes::Blob;

/// How many bytes the segments of a block may have together: 1 GiB. A run's journal takes no more.
const LOAD_LIMIT: u64 = 0x4000_0000;

/// How many bytes the meta of a block may have: 4 MiB. One of a thousand sources has some 30 KB.
const META_LIMIT: usize = 0x40_0000;

/// How many bytes the file under a key may have.
fn limit_of(key: &Key) -> usize
    ensures { result ≡ limit_of key.now }
{
    match key {
        Key::Meta(_) => META_LIMIT,
        Key::Index(_) | Key::Segment(..) | Key::Mark(_) => FILE_LIMIT,
    }
}

/// The bytes that were found under a key, unless they are too many.
fn found(key: &Key, bytes: Blob) -> Result<Blob, LoadRefusal>
    ensures read { (file : Option (List ℕ)) → file ≡ Some bytes
        → Loads (λ bytes. bytes) result (file_in key.now file) }
    ensures within { IfOk result (λ bytes. length bytes ≤ limit_of key.now) }
    ensures stopped { IfErr result (IfRefused (RefusesFile key.now)) }
    ensures calm { was_fault result ≡ false }
{
    if bytes.bytes().len() > limit_of(key) {
        return Err(LoadRefusal::Refused(CheckRefusal::TooLarge(*key)));
    }
    Ok(bytes)
}

/// What a file's reading was answered, as the file under a key.
fn file_of(key: &Key, answer: ShelfAnswer) -> Result<Blob, LoadRefusal>
    ensures read { (file : Option (List ℕ)) → ShowsFile file answer
        → Loads (λ bytes. bytes) result (file_in key.now file) }
    ensures within { IfOk result (λ bytes. length bytes ≤ limit_of key.now) }
    ensures stopped { IfErr result (IfRefused (RefusesFile key.now)) }
    ensures failed { was_fault result ≡ file_failed answer }
    ensures memory { answer ≡ ShelfAnswer.NoMemory → result ≡ Err LoadRefusal.NoMemory }
{
    match answer {
        ShelfAnswer::Found(bytes) => found(key, bytes),
        ShelfAnswer::Absent => Err(LoadRefusal::Refused(CheckRefusal::NoFile(*key))),
        ShelfAnswer::TooLarge => Err(LoadRefusal::Refused(CheckRefusal::TooLarge(*key))),
        ShelfAnswer::Failed => Err(LoadRefusal::ShelfFault),
        ShelfAnswer::NoMemory => Err(LoadRefusal::NoMemory),
    }
}

/// Reads the file under a key.
fn read_file<F: Shelf>(alloc: Global, shelf: &mut F, key: &Key) -> Result<Blob, LoadRefusal>
    requires { IsLawfulKey key.now }
    ensures read { (told : Contents) → (F.told shelf.old).files ≡ Some told
        → Loads (λ bytes. bytes) result (file_at told key.now) }
    ensures within { IfOk result (λ bytes. length bytes ≤ limit_of key.now) }
    ensures stopped { IfErr result (IfRefused (RefusesFile key.now)) }
    ensures asks { AsksFile F.told shelf.old shelf.new key.now result }
    ensures kept { KeepsShelf F.told shelf.old shelf.new (was_fault result) }
{
    let name = key.text(alloc)?;
    let answer = shelf.read(name.as_str());
    file_of(key, answer)
}

/// A refusal of a block.
pub(crate) fn refused_block(refusal: CheckRefusal) -> LoadRefusal
    ensures { result ≡ refused_block refusal }
{
    match refusal {
        CheckRefusal::NoMemory => LoadRefusal::NoMemory,
        refusal => LoadRefusal::Refused(refusal),
    }
}

/// A refusal of a meta.
fn refused_meta(refusal: MetaRefusal) -> LoadRefusal
    ensures { result ≡ refused_meta refusal }
{
    match refusal {
        MetaRefusal::NoMemory => LoadRefusal::NoMemory,
        refusal => LoadRefusal::Refused(CheckRefusal::BadMeta(refusal)),
    }
}

/// Reads the meta of a block.
pub(crate) fn read_meta<F: Shelf>(
    alloc: Global,
    shelf: &mut F,
    ulid: Ulid,
) -> Result<Meta, LoadRefusal>
    ensures read { (told : Contents) → (F.told shelf.old).files ≡ Some told
        → Loads fields_of result (meta_at told ulid) }
    ensures within { IfOk result (λ meta. IsOfText (fields_of meta)) }
    ensures stopped { IfErr result (IfRefused (StopsAt ulid 1)) }
    ensures asks { AsksFile F.told shelf.old shelf.new (Key.Meta ulid) result }
    ensures kept { KeepsShelf F.told shelf.old shelf.new (was_fault result) }
{
    let text = read_file(alloc, shelf, &Key::Meta(ulid))?;
    match Meta::read(alloc, text.bytes()) {
        Ok(meta) => Ok(meta),
        Err(refusal) => Err(refused_meta(refusal)),
    }
}

/// The greatest number of a file that the series of an index name.
fn last_named(alloc: Global, index: &[u8]) -> Result<u32, LoadRefusal>
    ensures named { IfOk result (NamesLast index.now) }
    ensures most { IfOk result (λ last. last ≤ segment_limit) }
    ensures stopped { IfErr result (λ said. (refusal : CheckRefusal) × (said ≡ refused_block refusal)
        × ((refusal ≡ CheckRefusal.NoMemory)
        ⊎ (refused_as refused_index (index_at index.now) ≡ Err refusal))) }
{
    match read_index(alloc, index) {
        Ok(indexed) => Ok(last_segment(indexed.members())),
        Err(refusal) => Err(refused_block(refusal)),
    }
}

/// Reads the index of a block, with the greatest number of a file that its series name.
pub(crate) fn read_named<F: Shelf>(
    alloc: Global,
    shelf: &mut F,
    ulid: Ulid,
) -> Result<(Blob, u32), LoadRefusal>
    ensures read { (told : Contents) → (F.told shelf.old).files ≡ Some told
        → LoadsIndex result (index_in told ulid) }
    ensures named { IfOk result (λ x. NamesLast x.0 x.1) }
    ensures most { IfOk result (λ x. x.1 ≤ segment_limit) }
    ensures within { IfOk result (λ x. length x.0 ≤ file_limit) }
    ensures stopped { IfErr result (IfRefused (StopsAt ulid 2)) }
    ensures asks { AsksFile F.told shelf.old shelf.new (Key.Index ulid) result }
    ensures kept { KeepsShelf F.told shelf.old shelf.new (was_fault result) }
{
    let index = read_file(alloc, shelf, &Key::Index(ulid))?;
    let last = last_named(alloc, index.bytes())?;
    Ok((index, last))
}

/// The number of the file in which a chunk stands.
fn file_number(place: &ChunkPlace) -> u32
    ensures { result ≡ file_number place.now }
{
    place.segment.saturating_add(1).min(SEGMENT_LIMIT)
}

/// The greater one of a number and of the files' in which chunks stand.
fn last_of(chunks: &[ChunkPlace], before: u32) -> u32
    ensures { result ≡ max before (greatest (map file_number chunks.now)) }
{
    let mut last = before;
    for place in chunks {
        last = last.max(file_number(place));
    }
    last
}

/// The greatest number of a file that series name.
fn last_segment(indexed: &[LentSeries<'_>]) -> u32
    ensures value { result ≡ last_segment indexed.now }
    ensures most { result ≤ segment_limit }
{
    let mut last = 0;
    for one in indexed {
        last = last_of(one.chunks(), last);
    }
    last
}

/// Reads a segment of a block, behind others that have so many bytes together.
fn read_segment<F: Shelf>(
    alloc: Global,
    shelf: &mut F,
    key: &Key,
    before: u64,
) -> Result<Blob, LoadRefusal>
    requires lawful { IsLawfulKey key.now }
    requires few { before ≤ load_limit }
    ensures read { (told : Contents) → (F.told shelf.old).files ≡ Some told
        → Loads (λ bytes. bytes) result (segment_at told key.now before) }
    ensures within { IfOk result (λ bytes. length bytes ≤ file_limit) }
    ensures together { IfOk result (λ bytes. before + length bytes ≤ load_limit) }
    ensures stopped { IfErr result (IfRefused (RefusesFile key.now)) }
    ensures asks { AsksFile F.told shelf.old shelf.new key.now result }
    ensures kept { KeepsShelf F.told shelf.old shelf.new (was_fault result) }
{
    let segment = read_file(alloc, shelf, key)?;
    let bytes = before + segment.bytes().len() as u64;
    if bytes > LOAD_LIMIT {
        return Err(LoadRefusal::Refused(CheckRefusal::TooLarge(*key)));
    }
    Ok(segment)
}

/// Reads so many segments of a block. The first that passes, with those before it, what all may have together ends it.
pub(crate) fn read_segments<F: Shelf>(
    alloc: Global,
    shelf: &mut F,
    ulid: Ulid,
    last: u32,
) -> Result<BlobList, LoadRefusal>
    requires { last ≤ segment_limit }
    ensures read { (told : Contents) → (F.told shelf.old).files ≡ Some told
        → Loads (λ segments. segments) result (segments_at told ulid 1 0 last) }
    ensures many { IfOk result (λ segments. length segments ≡ last) }
    ensures within { IfOk result (All (λ (segment : List ℕ). length segment ≤ file_limit)) }
    ensures together { IfOk result (λ segments. sum_by length segments ≤ load_limit) }
    ensures asks { AsksSegments F.told shelf.old shelf.new
        ulid last result }
    ensures kept { KeepsShelf F.told shelf.old shelf.new (was_fault result) }
{
    let mut segments = BlobList::new(alloc);
    let mut bytes = 0u64;
    for number in 0..last {
        let segment = read_segment(alloc, shelf, &Key::Segment(ulid, number + 1), bytes)?;
        bytes += segment.bytes().len() as u64;
        segments.push(segment)?;
    }
    Ok(segments)
}

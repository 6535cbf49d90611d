//! Whether a block may be shipped.
ghost use Rattle.std.specs.Prelude.{◌≡◌, ◌⊎◌, length, sum_by, Err, MatchResult};
ghost use Rattle.std.specs.List.{AllByRecursion};
ghost use Rattle.base.specs.Grammar.{IsBytes};
ghost use Rattle.base.specs.Reading.{Answers};
ghost use Rattle.block_content.specs.Named.{counted};
ghost use Rattle.block_content.specs.Verdict.{IsVerdict};
ghost use Rattle.block_content.specs.CheckReading.{is_alone, own_at, some_at, check_at, HaveCounts};

use crate::chunk_order::first_repeated;
use crate::chunk_reading::segment_bytes;
use crate::counting::{count_all, test_found};
use crate::index_reading::read_index;
use crate::naming::names_few;
use crate::reading_bound::reads_few;
use crate::{CheckRefusal, Checked};
use block_meta::{BlockFiles, Meta};
use index_v2::LentSeries;
use std::alloc::Global;
use ulid_core::Ulid;
use wire_bytes::Blob;

/// Tests what a block says of itself.
#[tactic(auto, unfolding(crate::specs::CheckReading::own_at))]
fn test_meta(ulid: Ulid, meta: &Meta) -> Result<(), CheckRefusal>
    ensures { Answers (λ x. x) result (own_at ulid meta.now) }
{
    if meta.ulid != ulid {
        return Err(CheckRefusal::UlidDiffers);
    }
    if meta.level != 1 {
        return Err(CheckRefusal::NotLevelOne);
    }
    if !is_alone(ulid, meta.sources.members()) {
        return Err(CheckRefusal::SourcesNotSelf);
    }
    if meta.resolution != 0 {
        return Err(CheckRefusal::Downsampled);
    }
    Ok(())
}

/// Whether a block is the only one of the sources.
fn is_alone(ulid: Ulid, sources: &[Ulid]) -> bool
    ensures { result ≡ is_alone ulid sources.now }
{
    match sources {
        [source] => *source == ulid,
        _ => false,
    }
}

/// Counts what series of an index hold, if there is one and what they hold is as it may be.
fn count_some(
    alloc: Global,
    meta: &Meta,
    index: &[u8],
    segments: &[Blob],
    bytes: u64,
    indexed: &[LentSeries<'_>],
) -> Result<(u64, u64), CheckRefusal>
    requires { bytes ≡ counted (sum_by length segments.now) }
    ensures { MatchResult result
        (HaveCounts (some_at meta.now index.now segments.now indexed.now))
        (λ e. (e ≡ CheckRefusal.NoMemory)
        ⊎ (some_at meta.now index.now segments.now indexed.now ≡ Err e)) }
{
    if indexed.is_empty() {
        return Err(CheckRefusal::EmptyBlock);
    }
    let few = reads_few(alloc, segments, bytes, indexed)?;
    if !few {
        return Err(CheckRefusal::NamesTooMuch);
    }
    let counts = count_all(alloc, meta, segments, indexed)?;
    test_found(counts.outside, first_repeated(indexed))?;
    if !names_few(index, bytes, counts.bytes, indexed) {
        return Err(CheckRefusal::NamesTooMuch);
    }
    Ok((indexed.len() as u64, counts.samples))
}

/// The series and the samples of a block that may be shipped under a ULID.
#[tactic(auto, unfolding(crate::specs::CheckReading::check_at, crate::specs::CheckReading::files_at))]
fn count_block(
    alloc: Global,
    ulid: Ulid,
    meta: &Meta,
    index: &[u8],
    segments: &[Blob],
) -> Result<(u64, u64), CheckRefusal>
    ensures exact { MatchResult result
        (HaveCounts (check_at ulid meta.now index.now segments.now))
        (λ e. (e ≡ CheckRefusal.NoMemory)
        ⊎ (check_at ulid meta.now index.now segments.now ≡ Err e)) }
    ensures bytes { IsBytes index.now × AllByRecursion IsBytes segments.now }
{
    let bytes = segment_bytes(segments);
    test_meta(ulid, meta)?;
    let indexed = read_index(alloc, index)?;
    count_some(alloc, meta, index, segments, bytes, indexed.members())
}

/// Tests whether a block may be shipped under a ULID. The files of a refused block are dropped.
pub fn check(alloc: Global, ulid: Ulid, files: BlockFiles) -> Result<Checked, CheckRefusal>
    ensures { IsVerdict ulid files result }
{
    let (series, samples) = count_block(
        alloc,
        ulid,
        &files.meta,
        files.index.bytes(),
        files.segments.members(),
    )?;
    Ok(Checked::new(ulid, files, series, samples))
}

//! Testing what a block's files hold, without keeping it.
ghost use Rattle.std.specs.Prelude.{◌≡◌, ◌⊎◌, List, Err, IfOk, IfErr};
ghost use Rattle.std.specs.List.{AllByRecursion};
ghost use Rattle.std.specs.Result.{IsOkAnd};
ghost use Rattle.base.specs.Grammar.{IsBytes};
ghost use Rattle.label_sets.specs.declared.series.Series.{Series};
ghost use Rattle.index_parts.specs.IndexFile.{IsIndex};
ghost use Rattle.block_content.specs.Content.{IsContent};
ghost use Rattle.block_content.specs.ContentRefusals.{RefusesContent};
ghost use Rattle.block_content.specs.CheckReading.{IsTested};
ghost use Rattle.block_content.specs.ContentReading.{ListsFew};

use crate::CheckRefusal;
use crate::chunk_order::first_repeated;
use crate::chunk_reading::segment_bytes;
use crate::counting::{count_all, test_found};
use crate::index_reading::read_index;
use base::List;
use block_meta::{BlockFiles, Meta};
use index_v2::LentSeries;
use std::alloc::Global;
use wire_bytes::Blob;

fn test_files<'a>(
    alloc: Global,
    meta: &Meta,
    index: &'a [u8],
    segments: &[Blob],
) -> Result<List<LentSeries<'a>>, CheckRefusal>
    ensures exact { IsTested meta.now index.now segments.now result }
    ensures few { IfOk result (ListsFew index.now) }
    ensures bytes { IsBytes index.now × AllByRecursion IsBytes segments.now }
{
    let _bytes = segment_bytes(segments);
    let indexed = read_index(alloc, index)?;
    let counts = count_all(alloc, meta, segments, indexed.members())?;
    test_found(counts.outside, first_repeated(indexed.members()))?;
    Ok(indexed)
}

/// Tests whether a block's files hold something that can be read, as `content` reads it, and hands back the series of its
/// index, which lends the texts of their labels. The data at each place is read once, and the samples of one chunk are kept at a
/// time.
pub fn test_content(alloc: Global, files: &BlockFiles) -> Result<List<LentSeries<'_>>, CheckRefusal>
    ensures found { IfOk result (λ indexed. IsIndex files.now.index indexed
        × ((list : List Series) × IsContent files.now list)) }
    ensures only { (list : List Series) → IsContent files.now list
        → IsOkAnd result (IsIndex files.now.index) ⊎ (result ≡ Err CheckRefusal.NoMemory) }
    ensures refused { IfErr result
        (λ refusal. (refusal ≡ CheckRefusal.NoMemory) ⊎ RefusesContent files.now refusal) }
    ensures refuses { (refusal : CheckRefusal) → RefusesContent files.now refusal
        → (result ≡ Err refusal) ⊎ (result ≡ Err CheckRefusal.NoMemory) }
    ensures few { IfOk result (ListsFew files.now.index) }
    ensures bytes { IsBytes files.now.index }
{
    test_files(
        alloc,
        &files.meta,
        files.index.bytes(),
        files.segments.members(),
    )
}

//! What a call is at, and what it has of a block so far.
ghost use Rattle.std.specs.Prelude.{◌+◌, ◌^◌, ◌<◌, ◌≤◌, length, IsOk};
ghost use Rattle.index_parts.specs.IndexFile.{least_size};
ghost use Rattle.index_parts.specs.Parts.{known};
ghost use Rattle.index_parts.specs.RowsReading.{postings_table_at};

use crate::BlockOutcome;
use index_parts::ChunkPlace;
use index_v2::IndexSeries;
use std::collections::VecDeque;
use store_chunks::{ChunkRow, Pending};
use store_ranges::{GroupRead, RunRead, Sections, SymbolTexts};
use wire_bytes::Blob;
use world_core::Op;

/// How many bytes an index has, of which there are enough for a header and a table of contents.
#[derive(Clone, Copy)]
pub(crate) struct IndexSize {
    pub(crate) bytes: u64,
    ghost long: { least_size ≤ bytes },
}

/// The symbols, and where the other sections stand.
#[derive(Drop)]
pub(crate) struct SymbolsRead {
    pub(crate) places: Sections,
    pub(crate) symbols: SymbolTexts,
}

/// The bytes of the postings table, which was tested, beside the symbols.
#[derive(Drop)]
pub(crate) struct TablesRead {
    pub(crate) first: SymbolsRead,
    pub(crate) table: Blob,
    ghost fits: { first.places.toc.postings_table + length table < 2 ^ 64 },
    ghost tested: { IsOk (postings_table_at
        (known (record { begin = first.places.toc.postings_table; bytes = table }))
        first.places.toc.postings_table) },
}

/// The reads of runs of series: the one that is waited for, those behind it, and the series of
/// those before it.
#[derive(Drop)]
pub(crate) struct RunWork {
    pub(crate) read: SymbolsRead,
    pub(crate) run: RunRead,
    pub(crate) later: VecDeque<RunRead>,
    pub(crate) series: Vec<IndexSeries>,
}

/// The reads of chunks: the group that is waited for, those behind it, and the chunks that were
/// read.
#[derive(Drop)]
pub(crate) struct ChunkWork {
    pub(crate) series: Vec<IndexSeries>,
    /// The places of the chunks, ascending by their references.
    pub(crate) places: Vec<ChunkPlace>,
    pub(crate) group: GroupRead,
    pub(crate) later: VecDeque<GroupRead>,
    pub(crate) found: Vec<ChunkRow>,
}

/// What a call waits for.
#[derive(Drop)]
pub(crate) enum Work {
    Fresh,
    /// The table of contents of an index of so many bytes.
    Contents(IndexSize),
    Symbols(Sections),
    /// The postings table; the symbols are there.
    Table(SymbolsRead),
    /// The postings lists; the symbols and the postings table are there.
    Lists(TablesRead),
    Run(RunWork),
    Whole,
    Group(ChunkWork),
    /// A chunk of the group that sticks out, by its reference and how many bytes it takes; and
    /// those of the group behind it.
    Single(ChunkWork, u64, u64, VecDeque<Pending>),
    Over,
}

/// How a call goes on.
#[derive(Drop)]
pub(crate) enum Step {
    /// It asks for an operation, and waits.
    Wait(Op, Work),
    /// It has come to its end.
    Done(BlockOutcome),
}

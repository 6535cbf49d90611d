//! An index of a list of series, from the first section to the table of contents. There is one text for each list, so
//! blocks of the same series have the same index, whoever writes it.

ghost use Rattle.std.specs.Prelude.{◌↔◌, IsTrue, ◌≡◌, ◌++◌, ◌∷◌, [], ◌≤◌, ◌<◌, ◌*◌, ◌^◌, ℕ, List, length, slice_get, option_map, unwrap_or, IfOk, OnOk, OnErr, MatchResult};
ghost use Rattle.std.specs.List.{All};
ghost use Rattle.index_parts.specs.Turns.{InOrder};
ghost use Rattle.index_parts.specs.SeriesEntry.{StartsAfter};
ghost use Rattle.index_parts.specs.LabelIndices.{IsLabelOffsets};
ghost use Rattle.index_parts.specs.Rows.{MayComeAfter, IsPostingsTable};
ghost use Rattle.index_parts.specs.declared.index_series.IndexSeries.{IndexSeries};
ghost use Rattle.index_parts.specs.IndexFile.{IsIndex, series_unit};
ghost use Rattle.index_parts.specs.LabelTable.{HasLabelIndices};
ghost use Rattle.index_writing.specs.WriteSteps.{greatest, Makes};
ghost use Rattle.index_writing.specs.Written.{AreWritable, IsBehind, HaveSmallNumbers, first_or, up_to_symbols, with_series, with_label_indices, with_lists, with_label_offsets, with_table, table_rows, offset_rows, label_index_places, list_places, toc_of, written, parts_of};

use crate::IndexWriteRefusal;
use crate::order::is_behind;
use crate::parts::{Parts, put_parts};
use crate::section_places::{put_label_indices, put_lists};
use crate::section_tables::{put_label_offsets, put_table, put_toc};
use base::{NoMemory, TryCopy};
use index_parts::{ChunkList, HEADER_SIZE, IndexSeries, SERIES_UNIT, Toc};
use label_sets::LabelSet;
use std::alloc::Global;
use std::marker::Model;
use wire_bytes::{Blob, NumberList};

/// The place of the symbols, behind the magic number and the version.
const SYMBOLS_PLACE: u64 = HEADER_SIZE as u64;

/// Collects series in ascending order of their labels, and writes them as an index.
#[derive(Drop)]
pub struct IndexWriter {
    series: Vec<IndexSeries>,
}

impl Model for IndexWriter {
    ghost use Rattle.std.specs.Prelude.{List};
    ghost use Rattle.index_parts.specs.declared.index_series.IndexSeries.{IndexSeries};
    ghost use Rattle.index_writing.specs.Written.{AreWritable};

    ghost Value = { List IndexSeries };

    ghost view = { λ w. w.series.items };

    ghost invariant = { λ w. AreWritable w.series.items };
}

impl IndexWriter {
    /// A writer of no series yet. It takes no memory.
    pub fn new(alloc: Global) -> IndexWriter
        ensures { result ≡ [] }
    {
        IndexWriter {
            series: Vec::new(alloc),
        }
    }

    /// Whether a series of these labels may be added: they are greater than those of the last one, if there is one.
    pub fn may_add(&self, labels: &LabelSet) -> bool
        ensures { IsTrue result ↔ IsBehind self.now labels.now }
    {
        is_behind(self.series.as_slice(), labels)
    }

    /// Adds a series behind those that were added before, and keeps its labels. They are greater than those before, and its
    /// chunks follow one another in time: `may_add` and `are_in_order` test it.
    pub fn add(&mut self, labels: LabelSet, chunks: &ChunkList) -> Result<(), NoMemory>
        requires greater { IsBehind self.old labels }
        requires chunks { InOrder StartsAfter chunks.now }
        ensures ok { OnOk result
            (self.new ≡ self.old ++ record { labels = labels; chunks = chunks.now } ∷ []) }
        ensures err { OnErr result (self.new ≡ self.old) }
    {
        let series = IndexSeries {
            labels,
            chunks: chunks.copy()?,
        };
        self.series.push(series)?;
        Ok(())
    }

    /// The index of the series that were added.
    pub fn finish(self) -> Result<Blob, IndexWriteRefusal>
        // What is written is exactly the one text, which is too large exactly where it passes the greatest length.
        ensures exact { MatchResult result
            (λ blob. (blob ≡ written self) × (length (written self) ≤ greatest))
            (λ e. e ≡ IndexWriteRefusal.TooLarge → greatest < length (written self)) }

        // It is an index of the series that were added.
        ensures index { IfOk result (λ blob. IsIndex blob self) }

        // It has their label indices, and the table of these.
        ensures label_indices { IfOk result (λ blob. HasLabelIndices blob self) }
    {
        let alloc = *self.series.allocator();
        let out = text_of(alloc, self.series.as_slice())?;
        Ok(Blob::from_vec(out).shared()?)
    }
}

/// Where the label indices, the postings lists and the tables stand.
#[derive(Drop)]
struct Places {
    label_indices: NumberList,
    lists: NumberList,
    label_offsets: u64,
    table: u64,
}

/// Writes label indices and postings lists behind the series.
#[tactic(auto, unfolding(crate::specs::Written::with_label_indices, crate::specs::Written::with_lists, crate::specs::Written::label_index_places, crate::specs::Written::list_places))]
fn put_all_lists(
    out: &mut Vec<u8>,
    parts: &Parts,
) -> Result<(NumberList, NumberList), IndexWriteRefusal>
    requires so_far { out.old.items ≡ with_series parts.now }
    requires room { length out.old.items ≤ greatest }
    requires small { HaveSmallNumbers parts.now }
    ensures makes { Makes result out.new.items (with_lists parts.now) }
    ensures label_indices { IfOk result (λ places. places.0 ≡ label_index_places parts.now) }
    ensures lists { IfOk result (λ places. places.1 ≡ list_places parts.now) }
{
    let label_indices = put_label_indices(out, parts.names.members())?;
    let lists = put_lists(out, &parts.numbers, parts.rows.members())?;
    Ok((label_indices, lists))
}

/// Writes the two tables behind the postings lists.
#[tactic(auto, unfolding(crate::specs::Written::with_label_offsets, crate::specs::Written::with_table, crate::specs::Written::label_index_places, crate::specs::Written::list_places))]
fn put_tables(
    out: &mut Vec<u8>,
    parts: &Parts,
    label_indices: NumberList,
    lists: NumberList,
) -> Result<Places, IndexWriteRefusal>
    requires so_far { out.old.items ≡ with_lists parts.now }
    requires label_indices { label_indices ≡ label_index_places parts.now }
    requires lists { lists ≡ list_places parts.now }
    ensures makes { Makes result out.new.items (with_table parts.now) }
    ensures stands { InOrder MayComeAfter
        (table_rows parts.now.symbols parts.now.rows (list_places parts.now)) → (after : List ℕ)
        → OnOk result
        (IsPostingsTable (out.new.items ++ after) (length (with_label_offsets parts.now))
        (table_rows parts.now.symbols parts.now.rows (list_places parts.now))) }
    ensures offsets_stand { (after : List ℕ)
        → OnOk result
        (IsLabelOffsets (out.new.items ++ after) (length (with_lists parts.now))
        (offset_rows parts.now)) }
    ensures label_indices { IfOk result
        (λ places. places.label_indices ≡ label_index_places parts.now) }
    ensures lists { IfOk result (λ places. places.lists ≡ list_places parts.now) }
    ensures label_offsets { IfOk result
        (λ places. places.label_offsets ≡ length (with_lists parts.now)) }
    ensures table { IfOk result (λ places. places.table ≡ length (with_label_offsets parts.now)) }
{
    let symbols = parts.symbols.members();
    let label_offsets = out.len() as u64;
    put_label_offsets(out, symbols, parts.names.members(), &label_indices)?;
    let table = out.len() as u64;
    put_table(out, symbols, parts.rows.members(), lists.members())?;
    Ok(Places {
        label_indices,
        lists,
        label_offsets,
        table,
    })
}

fn first_or(places: &[u64], other: u64) -> u64
    ensures { result ≡ first_or other places.now }
{
    places.first().copied().unwrap_or(other)
}

/// The place of the first series, or that behind the symbols.
fn series_place(parts: &Parts) -> u64
    requires small { All (λ number. number < 2 ^ 32) parts.now.numbers }
    ensures { result
        ≡ unwrap_or (option_map
        (λ number. series_unit * number) (slice_get parts.now.numbers 0)) parts.now.symbols_end }
{
    match parts.numbers.members().first() {
        Some(number) => SERIES_UNIT * *number,
        None => parts.symbols_end,
    }
}

/// Where the sections stand.
#[tactic(auto, unfolding(crate::specs::Written::toc_of))]
fn toc_of(parts: &Parts, places: &Places) -> Toc
    requires small { All (λ number. number < 2 ^ 32) parts.now.numbers }
    requires end { parts.now.symbols_end ≡ length (up_to_symbols parts.now.symbols) }
    requires label_indices { places.now.label_indices ≡ label_index_places parts.now }
    requires lists { places.now.lists ≡ list_places parts.now }
    requires label_offsets { places.now.label_offsets ≡ length (with_lists parts.now) }
    requires table { places.now.table ≡ length (with_label_offsets parts.now) }
    ensures { result ≡ toc_of parts.now }
{
    Toc {
        symbols: SYMBOLS_PLACE,
        series: series_place(parts),
        label_indices: first_or(places.label_indices.members(), 0),
        label_offsets: places.label_offsets,
        postings: first_or(places.lists.members(), 0),
        postings_table: places.table,
    }
}

/// Writes an index of series.
#[tactic(auto, unfolding(crate::specs::Written::written))]
fn fill(out: &mut Vec<u8>, list: &[IndexSeries]) -> Result<(), IndexWriteRefusal>
    requires empty { out.old.items ≡ [] }
    requires lawful { AreWritable list.now }
    ensures makes { Makes result out.new.items (written list.now) }
    ensures index { OnOk result (IsIndex out.new.items list.now) }
    ensures label_indices { OnOk result (HasLabelIndices out.new.items list.now) }
{
    let parts = put_parts(out, list)?;
    let (label_indices, lists) = put_all_lists(out, &parts)?;
    let places = put_tables(out, &parts, label_indices, lists)?;
    put_toc(out, &toc_of(&parts, &places))
}

/// How many bytes the index of series probably has: some for each series, and some for each of its labels and chunks.
fn usual_size(list: &[IndexSeries]) -> usize {
    let mut size = 128usize;
    for one in list {
        let labels = one.labels.labels().len().saturating_mul(8);
        let chunks = one.chunks.len().saturating_mul(8);
        size = size
            .saturating_add(labels.saturating_add(chunks))
            .saturating_add(16);
    }
    size
}

fn text_of(alloc: Global, list: &[IndexSeries]) -> Result<Vec<u8>, IndexWriteRefusal>
    requires { AreWritable list.now }
    ensures exact { MatchResult result
        (λ out. (out.items ≡ written list.now) × (length (written list.now) ≤ greatest))
        (λ e. e ≡ IndexWriteRefusal.TooLarge → greatest < length (written list.now)) }
    ensures index { IfOk result (λ out. IsIndex out.items list.now) }
    ensures label_indices { IfOk result (λ out. HasLabelIndices out.items list.now) }
{
    let mut out = Vec::with_capacity(alloc, usual_size(list))?;
    fill(&mut out, list)?;
    Ok(out)
}

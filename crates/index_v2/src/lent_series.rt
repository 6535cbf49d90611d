//! A series whose labels' texts stay in the index. Checks and merges go through all series of a block in the room of
//! one, so that a series takes no memory of its own.

ghost use Rattle.std.specs.Prelude.{◌≡◌, [], map, Ok, IfOk, IsOk, OnOk};
ghost use Rattle.base.specs.Reading.{Gives};
ghost use Rattle.label_sets.specs.Labels.{IsLabelSet, added};
ghost use Rattle.index_v2.specs.LentLabels.{as_label};
ghost use Rattle.index_v2.specs.SeriesLabels.{labelled_at};

use crate::IndexSeries;
use crate::series_labels::texts_of;
use crate::symbols::Symbols;
use base::{NoMemory, TryCopy};
use index_parts::{ChunkList, ChunkPlace, PartRefusal, before_labels, chunks_behind};
use label_sets::{LabelRefusal, LabelSet};
use std::alloc::Global;
use std::marker::Model;

/// A label whose texts the index lends.
#[derive(Clone, Copy)]
pub struct LentLabel<'a> {
    pub name: &'a str,
    pub value: &'a str,
}

/// A series whose labels' texts the index lends. Handed back to the reader it is room for another one: the memory of its
/// lists is used again.
#[derive(Drop)]
pub struct LentSeries<'a> {
    labels: Vec<LentLabel<'a>>,
    chunks: ChunkList,
}

impl<'a> Model for LentSeries<'a> {
    ghost use Rattle.std.specs.Prelude.{map};
    ghost use Rattle.label_sets.specs.Labels.{IsLabelSet};
    ghost use Rattle.index_parts.specs.declared.index_series.IndexSeries.{IndexSeries};
    ghost use Rattle.index_v2.specs.LentLabels.{as_label};

    ghost Value = { IndexSeries };

    ghost view = { λ s. record { labels = map as_label s.labels.items; chunks = s.chunks } };

    ghost invariant = { λ s. IsLabelSet (map as_label s.labels.items) };
}

impl<'a> LentSeries<'a> {
    /// A series without labels and chunks, as room for others. It takes no memory.
    pub fn new(alloc: Global) -> Self
        ensures { result ≡ record { labels = []; chunks = [] } }
    {
        LentSeries {
            labels: Vec::new(alloc),
            chunks: ChunkList::new(alloc),
        }
    }

    /// A series without labels and chunks in the memory of these lists, as room for others.
    pub fn in_lists(labels: Vec<LentLabel<'a>>, chunks: Vec<ChunkPlace>) -> Self
        ensures { result ≡ record { labels = []; chunks = [] } }
    {
        let (mut labels, mut chunks) = (labels, chunks);
        labels.clear();
        chunks.clear();
        LentSeries {
            labels,
            chunks: ChunkList::from_vec(chunks),
        }
    }

    /// The labels, and where the chunks stand. Room for others can be made of both lists again.
    pub fn into_lists(self) -> (Vec<LentLabel<'a>>, Vec<ChunkPlace>)
        ensures labels { map as_label result.0.items ≡ self.entry.labels }
        ensures lawful { IsLabelSet self.entry.labels }
        ensures chunks { result.1.items ≡ self.entry.chunks }
    {
        (self.labels, self.chunks.into_vec())
    }

    /// The labels in ascending order of their names.
    pub fn labels(&self) -> &[LentLabel<'a>]
        ensures value { map as_label result.now ≡ self.now.labels }
        ensures lawful { IsLabelSet self.now.labels }
    {
        self.labels.as_slice()
    }

    /// Where the chunks stand.
    pub fn chunks(&self) -> &[ChunkPlace]
        ensures { result.now ≡ self.now.chunks }
    {
        self.chunks.members()
    }

    /// A copy that lends nothing. It takes as much memory as the texts are long.
    pub fn to_series(&self, alloc: Global) -> Result<IndexSeries, NoMemory>
        ensures { IfOk result (λ series. series ≡ self.now) }
    {
        Ok(IndexSeries {
            labels: set_of(alloc, self.labels.as_slice())?,
            chunks: self.chunks.copy()?,
        })
    }

    /// Reads the series at a place of the index.
    #[inline(always)]
    pub(crate) fn read(
        index: &[u8],
        symbols: &Symbols<'a>,
        at: u64,
        room: LentSeries<'a>,
    ) -> Result<LentSeries<'a>, PartRefusal>
        ensures { Gives PartRefusal.NoMemory
            (λ series. series) result (labelled_at index.now symbols.now at) }
    {
        let LentSeries { labels, chunks } = room;
        let (count, cursor) = before_labels(index, at)?;
        let (texts, labels_end) = match texts_of(symbols, count, cursor, labels) {
            Ok(read) => read,
            Err(refusal) => return Err(refusal),
        };
        let chunks = chunks_behind(labels_end, chunks)?;
        match texts {
            Ok(labels) => Ok(LentSeries { labels, chunks }),
            Err(refusal) => Err(refusal),
        }
    }
}

/// Adds a label that a set has room for: its name and its value are some text, and it is not there yet.
pub fn add_label(set: &mut LabelSet, name: &str, value: &str) -> Result<(), NoMemory>
    requires { IsOk (added set.old name.now value.now) }
    ensures { OnOk result (added set.old name.now value.now ≡ Ok set.new) }
{
    match set.add(name, value) {
        Ok(()) => Ok(()),
        Err(LabelRefusal::NoMemory) => Err(NoMemory),
        Err(
            LabelRefusal::EmptyName
            | LabelRefusal::EmptyValue
            | LabelRefusal::Repeated
            | LabelRefusal::BadText(_),
        ) => unreachable!(),
    }
}

/// The label set of these labels, with copies of their texts.
pub fn set_of(alloc: Global, labels: &[LentLabel<'_>]) -> Result<LabelSet, NoMemory>
    requires { IsLabelSet (map as_label labels.now) }
    ensures { IfOk result (λ set. set ≡ map as_label labels.now) }
{
    let mut set = LabelSet::empty(alloc);
    for label in labels {
        add_label(&mut set, label.name, label.value)?;
    }
    Ok(set)
}

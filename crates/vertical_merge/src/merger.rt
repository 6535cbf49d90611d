//! The merge of series from several places: of the samples of one label set at one time the first that was added stays,
//! so whoever adds decides which block or which gateway goes before. It serves calls, queries and compactions alike.

ghost use Rattle.std.specs.Prelude.{◌≡◌, ◌≢◌, [], ◌++◌, ◌∷◌, List, map, All, IfOk, OnOk, OnErr, IsTrue, ◌↔◌, fold};
ghost use Rattle.std.specs.List.Sorted.{IsSortedBy, IsStableBy};
ghost use Rattle.base.specs.Lists.{joined as all_of};
ghost use Rattle.label_sets.specs.Triples.{Triple, triples_of, triples_under};
ghost use Rattle.vertical_merge.specs.Merged.{IsMerge, IsDeduplication, PatternsAgree};
ghost use Rattle.vertical_merge.specs.Joined.{has_lesser_labels, joined_to, series_of, first_samples};

use crate::sample_merge::{Parts, first_of_parts};
use base::{NoMemory, TryCopy};
use label_sets::{LabelSet, SampleList, Series, SeriesList};
use std::alloc::Global;
use std::marker::Model;

/// Series that were added, to be merged. It is seen as the samples that were added, in that order.
#[derive(Drop)]
pub struct Merger {
    added: Vec<Series>,
}

impl Model for Merger {
    ghost use Rattle.std.specs.Prelude.{◌≢◌, [], List, All};
    ghost use Rattle.label_sets.specs.Triples.{Triple, triples_of};

    ghost Value = { List Triple };

    ghost view = { λ m. triples_of m.added.items };

    ghost invariant = { λ m. All (λ s. s.samples ≢ []) m.added.items };
}

impl Merger {
    /// Nothing was added yet. It takes no memory.
    pub fn new(alloc: Global) -> Self
        ensures { result ≡ [] }
    {
        Merger {
            added: Vec::new(alloc),
        }
    }

    /// Adds samples under a label set.
    pub fn add(&mut self, labels: &LabelSet, samples: &SampleList) -> Result<(), NoMemory>
        ensures ok { OnOk result (self.new ≡ self.old ++ triples_under labels.now samples.now) }
        ensures err { OnErr result (self.new ≡ self.old) }
    {
        let series = Series {
            labels: labels.copy()?,
            samples: samples.copy()?,
        };
        self.take(series)
    }

    /// Adds a series.
    pub fn take(&mut self, series: Series) -> Result<(), NoMemory>
        ensures ok { OnOk result
            (self.new ≡ self.old ++ triples_under series.labels series.samples) }
        ensures err { OnErr result (self.new ≡ self.old) }
    {
        if !series.samples.is_empty() {
            self.added.push(series)?;
        }
        Ok(())
    }

    /// Adds series, one after another. Where memory runs out, the first of them may have been added, and nothing else has changed.
    pub fn take_all(&mut self, series: SeriesList) -> Result<(), NoMemory>
        ensures ok { OnOk result (self.new ≡ self.old ++ triples_of series) }
        ensures err { OnErr result ((added rest : List Triple) × (triples_of series ≡ added ++ rest)
            × (self.new ≡ self.old ++ added)) }
    {
        take_each(self, series)
    }

    /// The merged series.
    pub fn finish(self) -> Result<SeriesList, NoMemory>
        ensures merged { IfOk result (IsMerge self) }
        ensures deduplicated { IfOk result (λ series. IsDeduplication (triples_of series) self) }
        // where no two patterns differ at a key, there is one deduplication
        ensures only { IfOk result (λ series. PatternsAgree self → (kept : List Triple)
            → IsDeduplication kept self → kept ≡ triples_of series) }
    {
        merge(self.added)
    }
}

fn take_each(merger: &mut Merger, series: SeriesList) -> Result<(), NoMemory>
    ensures ok { OnOk result (merger.new ≡ merger.old ++ triples_of series) }
    ensures err { OnErr result ((added rest : List Triple) × (triples_of series ≡ added ++ rest)
        × (merger.new ≡ merger.old ++ added)) }
{
    for one in series.into_vec() {
        merger.take(one)?;
    }
    Ok(())
}

fn merge(added: Vec<Series>) -> Result<SeriesList, NoMemory>
    requires { All (λ s. s.samples ≢ []) added.items }
    ensures { IfOk result (IsMerge (triples_of added.items)) }
{
    let mut series = added;
    sort_by_labels(&mut series)?;
    let joined = join_equal(series)?;
    first_of_each(joined)
}

/// Puts series in the order of their labels. Those with equal labels keep their order.
fn sort_by_labels(series: &mut Vec<Series>) -> Result<(), NoMemory>
    ensures sorted { OnOk result (IsSortedBy has_lesser_labels series.new.items) }
    ensures stable { OnOk result (IsStableBy has_lesser_labels series.old.items series.new.items) }
    ensures inhabited { All (λ s. s.samples ≢ []) series.old.items
        → All (λ s. s.samples ≢ []) series.new.items }
{
    series.sort_by(|one, other| one.labels.cmp(&other.labels))?;
    Ok(())
}

/// Joins neighbours under equal labels.
fn join_equal(series: Vec<Series>) -> Result<Vec<Parts>, NoMemory>
    ensures { IfOk result (λ made. map series_of made.items ≡ fold joined_to [] series.items) }
{
    let mut made = Vec::new(*series.allocator());
    for next in series {
        join(&mut made, next)?;
    }
    Ok(made)
}

/// Adds a series after the others: to the last one where that has the same labels.
fn join(made: &mut Vec<Parts>, next: Series) -> Result<(), NoMemory>
    ensures { OnOk result
        (map series_of made.new.items ≡ joined_to (map series_of made.old.items) next) }
{
    let alloc = *made.allocator();
    let Some(last) = made.pop() else {
        made.push(parts_of_one(alloc, next)?)?;
        return Ok(());
    };
    if last.labels == next.labels {
        made.push(with_part(last, next.samples)?)?;
    } else {
        made.push(last)?;
        made.push(parts_of_one(alloc, next)?)?;
    }
    Ok(())
}

/// A series of one part.
fn parts_of_one(alloc: Global, series: Series) -> Result<Parts, NoMemory>
    ensures { IfOk result (λ made. series_of made ≡ series) }
{
    let Series { labels, samples } = series;
    let mut parts = Vec::new(alloc);
    parts.push(samples)?;
    Ok(Parts { labels, parts })
}

/// The series with one more part.
fn with_part(series: Parts, more: SampleList) -> Result<Parts, NoMemory>
    ensures { IfOk result (λ made. series_of made
        ≡ record { labels = series.labels; samples = all_of series.parts.items ++ more }) }
{
    let Parts { labels, parts } = series;
    let mut parts = parts;
    parts.push(more)?;
    Ok(Parts { labels, parts })
}

/// The series with the first pattern at each time.
fn first_of_each(series: Vec<Parts>) -> Result<SeriesList, NoMemory>
    ensures { IfOk result (λ made. made ≡ map (λ s. record {
      labels = s.labels;
      samples = first_samples (all_of s.parts.items);
    }) series.items) }
{
    let mut made = SeriesList::new(*series.allocator());
    for one in series {
        let Parts { labels, parts } = one;
        made.push(Series {
            labels,
            samples: first_of_parts(parts)?,
        })?;
    }
    Ok(made)
}

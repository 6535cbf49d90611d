//! The series of one block in the order of their reduced labels.
ghost use Rattle.std.specs.Prelude.{◌≡◌, ◌^◌, ◌<◌, All, length, map, zip, IfOk, IsTrue, OnOk};
ghost use Rattle.std.specs.List.{AllByRecursion};
ghost use Rattle.std.specs.List.Sorted.{IsStrictlySortedBy};
ghost use Rattle.base.specs.Ordered.{in_order};
ghost use Rattle.label_sets.specs.Finals.{reduced_of};
ghost use Rattle.index_parts.specs.IndexFile.{compare_series};
ghost use Rattle.index_v2.specs.LentLabels.{as_label};
ghost use Rattle.block_merging.specs.Queues.{listed_pair, place_pair, LosesNothing, IsReducedAs, is_listed_before, is_reduced_before, AreListed};

use crate::lent_labels::{is_kept, reduced_lent};
use base::NoMemory;
use index_v2::{LentLabel, LentSeries, compare_lent};
use label_sets::{LabelSet, TextList};
use std::alloc::Global;
use std::snapshot::Snapshot;

/// A series of an index under its reduced labels, whose texts it lends.
#[derive(Drop)]
pub(crate) struct ListedSeries<'s, 'a> {
    labels: Vec<LentLabel<'a>>,
    number: u32,
    series: &'s LentSeries<'a>,
}

/// Where a series stands in its block's index.
#[derive(Drop)]
pub(crate) struct SeriesPlace<'a> {
    pub(crate) number: u32,
    /// The series as it stands there. It has no bytes: contracts alone see it.
    pub(crate) indexed: Snapshot<LentSeries<'a>>,
}

/// Whether none of these labels is left out.
fn keeps_all(labels: &[LentLabel<'_>], external: &LabelSet, replicas: &TextList) -> bool
    ensures { IsTrue result → reduced_of (map as_label labels.now) external.now replicas.now
        ≡ map as_label labels.now }
{
    for label in labels {
        if !is_kept(label, external, replicas) {
            return false;
        }
    }
    true
}

/// Whether no label of these series is left out.
fn keep_all(indexed: &[LentSeries<'_>], external: &LabelSet, replicas: &TextList) -> bool
    ensures { IsTrue result → AllByRecursion (LosesNothing external.now replicas.now) indexed.now }
{
    for one in indexed {
        if !keeps_all(one.labels(), external, replicas) {
            return false;
        }
    }
    true
}

/// Where series stand, in the order of the index.
fn places_as_listed<'a>(
    alloc: Global,
    numbers: &[u64],
    indexed: &[LentSeries<'a>],
) -> Result<Vec<SeriesPlace<'a>>, NoMemory>
    requires as_many { length numbers.now ≡ length indexed.now }
    requires small { All (λ n. n < 2 ^ 32) numbers.now }
    ensures { IfOk result (λ places. map place_pair places.items ≡ zip numbers.now indexed.now) }
{
    let mut places = Vec::with_capacity(alloc, indexed.len())?;
    for (place, series) in indexed.iter().enumerate() {
        places.push(place_at(numbers[place], series))?;
    }
    Ok(places)
}

fn place_at<'a>(number: u64, series: &LentSeries<'a>) -> SeriesPlace<'a>
    requires { number < 2 ^ 32 }
    ensures { place_pair result ≡ (number, series.now) }
{
    SeriesPlace {
        number: number as u32,
        indexed: Snapshot::of(series),
    }
}

fn listed_one<'s, 'a>(
    alloc: Global,
    external: &LabelSet,
    replicas: &TextList,
    number: u64,
    series: &'s LentSeries<'a>,
) -> Result<ListedSeries<'s, 'a>, NoMemory>
    requires { number < 2 ^ 32 }
    ensures reduced { IfOk result (IsReducedAs external.now replicas.now) }
    ensures series { IfOk result (λ one. one.series.now ≡ series.now) }
    ensures number { IfOk result (λ one. one.number ≡ number) }
{
    Ok(ListedSeries {
        labels: reduced_lent(alloc, series.labels(), external, replicas)?,
        number: number as u32,
        series,
    })
}

/// Series under their reduced labels, each with its number.
fn listed_series<'s, 'a>(
    alloc: Global,
    external: &LabelSet,
    replicas: &TextList,
    numbers: &[u64],
    indexed: &'s [LentSeries<'a>],
) -> Result<Vec<ListedSeries<'s, 'a>>, NoMemory>
    requires as_many { length numbers.now ≡ length indexed.now }
    requires small { All (λ n. n < 2 ^ 32) numbers.now }
    ensures { IfOk result
        (λ made. AreListed external.now replicas.now numbers.now indexed.now made.items) }
{
    let mut made = Vec::new(alloc);
    for (place, series) in indexed.iter().enumerate() {
        made.push(listed_one(alloc, external, replicas, numbers[place], series)?)?;
    }
    Ok(made)
}

/// Puts series in the order of their labels. Those with equal labels keep their order.
fn sort_by_labels(series: &mut Vec<ListedSeries<'_, '_>>) -> Result<(), NoMemory>
    ensures { OnOk result (series.new.items ≡ in_order is_listed_before series.old.items) }
{
    series.sort_by(|one, other| compare_lent(one.labels.as_slice(), other.labels.as_slice()))?;
    Ok(())
}

fn place_of<'a>(one: &ListedSeries<'_, 'a>) -> SeriesPlace<'a>
    ensures { place_pair result ≡ listed_pair one.now }
{
    SeriesPlace {
        number: one.number,
        indexed: Snapshot::of(one.series),
    }
}

/// Where the series of a list stand.
fn places_of<'a>(
    alloc: Global,
    series: &[ListedSeries<'_, 'a>],
) -> Result<Vec<SeriesPlace<'a>>, NoMemory>
    ensures { IfOk result (λ places. map place_pair places.items ≡ map listed_pair series.now) }
{
    let mut places = Vec::new(alloc);
    for one in series {
        places.push(place_of(one))?;
    }
    Ok(places)
}

/// Where the series of an index stand, in the order of their reduced labels. Those that have the same keep their order. Where no
/// label is left out they stand in the order of the index, and none is copied.
pub(crate) fn ordered_places<'a>(
    alloc: Global,
    external: &LabelSet,
    replicas: &TextList,
    numbers: &[u64],
    indexed: &[LentSeries<'a>],
) -> Result<Vec<SeriesPlace<'a>>, NoMemory>
    requires as_many { length numbers.now ≡ length indexed.now }
    requires small { All (λ n. n < 2 ^ 32) numbers.now }
    requires ascend { IsStrictlySortedBy compare_series indexed.now }
    ensures { IfOk result (λ places. map place_pair places.items
        ≡ in_order (is_reduced_before external.now replicas.now) (zip numbers.now indexed.now)) }
{
    if keep_all(indexed, external, replicas) {
        return places_as_listed(alloc, numbers, indexed);
    }
    let mut series = listed_series(alloc, external, replicas, numbers, indexed)?;
    sort_by_labels(&mut series)?;
    places_of(alloc, series.as_slice())
}

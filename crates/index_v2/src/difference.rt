//! Whether the postings lists of an index are just those of its series, and at which row they first are not. Rows and
//! series are walked side by side, and each search begins where the last one led, as what comes next mostly stands
//! near.

ghost use Rattle.std.specs.Prelude.{◌≡◌, ◌&&◌, ℕ, List, All, is_none, length, zip, None, Some, if◌then◌else◌};
ghost use Rattle.base.specs.Firsts.{or_else};
ghost use Rattle.std.specs.List.{list_all};
ghost use Rattle.base.specs.Lists.{is_one_of};
ghost use Rattle.label_sets.specs.declared.label.Label.{Label};
ghost use Rattle.index_parts.specs.declared.postings_row.PostingsRow.{PostingsRow};
ghost use Rattle.index_parts.specs.declared.index_series.IndexSeries.{IndexSeries};
ghost use Rattle.index_v2.specs.Ranks.{TellsRow, IsRanked, AreRanked, IsLabelRank, AreLabelRanks, AreRowRanks};
ghost use Rattle.index_v2.specs.WholeReading.{belongs, is_of_row, gap_from, gap_of, gap_among, earlier_place};
ghost use Rattle.std.specs.List.Sorted.{IsStrictlyIncreasing};

use crate::nearby::{Spot, Walk, place_near};
use crate::ranks::{self, RankList, Ranks};
use wire_bytes::NumberList;

/// The lesser of two places, if there is one.
fn earlier_place(one: Option<usize>, other: Option<usize>) -> Option<usize>
    ensures { result ≡ earlier_place one other }
{
    match (one, other) {
        (None, other) => other,
        (one, None) => one,
        (Some(one), Some(other)) => Some(one.min(other)),
    }
}

/// Whether a series stands in a row: all do in that of all series.
fn belongs(row: Option<Ranks>, series: &[Ranks]) -> bool
    ensures { (symbols : List (List ℕ)) (told : PostingsRow) (one : IndexSeries)
        → TellsRow symbols told row → IsRanked symbols one series.now
        → result ≡ belongs told.name told.value one }
{
    match row {
        None => true,
        Some(label) => ranks::place_of(series, label).is_ok(),
    }
}

/// Whether this is the number of a listed series that stands in the row, and where that series stands.
fn is_of_row(
    numbers: &[u64],
    series: &[RankList],
    row: Option<Ranks>,
    number: u64,
    guess: usize,
) -> (bool, usize)
    requires rise { IsStrictlyIncreasing numbers.now }
    requires as_many { length numbers.now ≡ length series.now }
    ensures { (symbols : List (List ℕ)) (told : PostingsRow) (listed : List IndexSeries)
        → TellsRow symbols told row → AreRanked symbols listed series.now
        → result.0 ≡ is_of_row (zip numbers.now listed) told number }
{
    match place_near(numbers, number, guess) {
        Ok(place) => (belongs(row, series[place].members()), place),
        Err(_) => (false, guess),
    }
}

/// Whether all numbers of a list are of series that stand in the row, and where the list of the next row probably begins.
fn are_of_row(
    numbers: &[u64],
    series: &[RankList],
    row: Option<Ranks>,
    list: &[u64],
    guess: usize,
) -> (bool, usize)
    requires rise { IsStrictlyIncreasing numbers.now }
    requires as_many { length numbers.now ≡ length series.now }
    ensures { (symbols : List (List ℕ)) (told : PostingsRow) (listed : List IndexSeries)
        → TellsRow symbols told row → AreRanked symbols listed series.now
        → result.0 ≡ list_all (is_of_row (zip numbers.now listed) told) list.now }
{
    let mut walk = Walk::from(guess);
    for number in list {
        let (is, place) = is_of_row(numbers, series, row, *number, walk.guess());
        if !is {
            return (false, guess);
        }
        walk = walk.with(place);
    }
    (true, walk.next_row())
}

/// Whether a list, whose numbers ascend, has a number, and where.
fn has_number(list: &[u64], number: u64, guess: usize) -> (bool, usize)
    requires { IsStrictlyIncreasing list.now }
    ensures { result.0 ≡ is_one_of list.now number }
{
    match place_near(list, number, guess) {
        Ok(place) => (true, place),
        Err(_) => (false, guess),
    }
}

/// Whether a list is kept: where no row before it has a list with a number of another series, and neither has it. With this
/// comes where the list of the next row probably begins.
pub(crate) fn is_kept(
    stray: Option<usize>,
    numbers: &[u64],
    series: &[RankList],
    row: Option<Ranks>,
    list: &[u64],
    guess: usize,
) -> (bool, usize)
    requires rise { IsStrictlyIncreasing numbers.now }
    requires as_many { length numbers.now ≡ length series.now }
    ensures { (symbols : List (List ℕ)) (told : PostingsRow) (listed : List IndexSeries)
        → TellsRow symbols told row → AreRanked symbols listed series.now
        → result.0 ≡ (is_none stray && list_all (is_of_row (zip numbers.now listed) told) list.now) }
{
    match stray {
        None => are_of_row(numbers, series, row, list, guess),
        Some(_) => (false, guess),
    }
}

/// The place that was found, or this one where its list is not kept.
pub(crate) fn stray_at(stray: Option<usize>, is_kept: bool, place: usize) -> Option<usize>
    ensures { result ≡ or_else stray (if is_kept then None else Some place) }
{
    match stray {
        Some(place) => Some(place),
        None => unless_has(is_kept, place),
    }
}

/// The place of a row, unless its list has the number.
fn unless_has(has: bool, place: usize) -> Option<usize>
    ensures { result ≡ (if has then None else Some place) }
{
    if has { None } else { Some(place) }
}

/// The place of a label's row where its list lacks the number, or the place where the row would stand. With it comes where the
/// label was found.
fn gap_at(
    rows: &[Ranks],
    lists: &[NumberList],
    number: u64,
    label: Ranks,
    near: Spot,
) -> (Option<usize>, Spot)
    requires rise { All IsStrictlyIncreasing lists.now }
    requires one_each { length rows.now ≡ length lists.now }
    ensures { (symbols : List (List ℕ)) (told : List PostingsRow) (one : Label)
        → AreRowRanks symbols told rows.now → IsLabelRank symbols one label
        → result.0 ≡ gap_from 0 told lists.now number one }
{
    match ranks::place_near(rows, label, near.row) {
        Ok(row) => {
            let (has, place) = has_number(lists[row].members(), number, near.guess(row));
            (unless_has(has, row), Spot { row, place })
        }
        Err(place) => (Some(place), near),
    }
}

/// The least of these places for the labels of a series, and where these were found, by their places in the series: those of the
/// next one are probably found near. From the thirty-third on labels share the spots of those before them.
fn gap_of(
    rows: &[Ranks],
    lists: &[NumberList],
    number: u64,
    labels: &[Ranks],
    mut near: [Spot; 32],
) -> (Option<usize>, [Spot; 32])
    requires rise { All IsStrictlyIncreasing lists.now }
    requires one_each { length rows.now ≡ length lists.now }
    ensures { (symbols : List (List ℕ)) (told : List PostingsRow) (all : List Label)
        → AreRowRanks symbols told rows.now → AreLabelRanks symbols all labels.now
        → result.0 ≡ gap_of told lists.now number all }
{
    let mut least = None;
    let mut slot = 0usize;
    for label in labels {
        let (gap, found) = gap_at(rows, lists, number, *label, near[slot % 32]);
        near[slot % 32] = found;
        slot = slot.wrapping_add(1);
        least = earlier_place(least, gap);
    }
    (least, near)
}

/// The least of these places for all series.
fn first_gap(
    rows: &[Ranks],
    lists: &[NumberList],
    numbers: &[u64],
    series: &[RankList],
) -> Option<usize>
    requires rise { All IsStrictlyIncreasing lists.now }
    requires as_many { length numbers.now ≡ length series.now }
    requires one_each { length rows.now ≡ length lists.now }
    ensures { (symbols : List (List ℕ)) (told : List PostingsRow) (listed : List IndexSeries)
        → AreRowRanks symbols told rows.now → AreRanked symbols listed series.now
        → result ≡ gap_among told lists.now (zip numbers.now listed) }
{
    let mut least = None;
    let mut near = [Spot { row: 0, place: 0 }; 32];
    for place in 0..numbers.len() {
        let labels = series[place].members();
        let (gap, found) = gap_of(rows, lists, numbers[place], labels, near);
        near = found;
        least = earlier_place(least, gap);
    }
    least
}

/// The least place at which the lists are not exactly those of the series, by the first row whose list has a number of another
/// series, and by the lists before it: those behind it may stand as empty lists.
pub(crate) fn difference(
    rows: &[Ranks],
    stray: Option<usize>,
    kept: &[NumberList],
    numbers: &[u64],
    series: &[RankList],
) -> Option<usize>
    requires rise { All IsStrictlyIncreasing kept.now }
    requires as_many { length numbers.now ≡ length series.now }
    requires one_each { length rows.now ≡ length kept.now }
    ensures { (symbols : List (List ℕ)) (told : List PostingsRow) (listed : List IndexSeries)
        → AreRowRanks symbols told rows.now → AreRanked symbols listed series.now
        → result ≡ earlier_place stray (gap_among told kept.now (zip numbers.now listed)) }
{
    earlier_place(stray, first_gap(rows, kept, numbers, series))
}

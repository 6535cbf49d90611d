//! The rows that decide what a matcher takes, and the numbers in their lists.
ghost use Rattle.std.specs.Prelude.{◌≡◌, ◌⊎◌, ◌+◌, ◌-◌, ◌*◌, ◌^◌, ◌<◌, ◌≤◌, [], not, All, length, slice_get, take, Err, IfOk, IfErr, IfSome, OnOk, MatchResult};
ghost use Rattle.std.specs.List.{filter};
ghost use Rattle.std.specs.List.Sorted.{IsStrictlyIncreasing};
ghost use Rattle.base.specs.Reading.{Gives};
ghost use Rattle.matchers.specs.ConditionSearches.{condition_asked};
ghost use Rattle.matchers.specs.Selectors.{is_accepted};
ghost use Rattle.index_v2.specs.PostingsLists.{is_row_of, list_of};
ghost use Rattle.index_v2.specs.declared.refusal.IndexRefusal.TheVariants.{NoMemory as IsNoMemory};
ghost use Rattle.series_selection.specs.Selections.{decides};
ghost use Rattle.series_selection.specs.SelectionSteps.{numbers_at, AreMarked, ListsStand, IsReadOn, IsDecidedBy};

use crate::marking::{mark, no_marks};
use index_v2::{IndexReader, IndexRefusal};
use label_sets::Text;
use matchers::{Condition, ConditionSearcher, Matcher};
use std::alloc::Global;
use wire_bytes::NumberList;

/// The numbers of all series, which the first row lists.
pub(crate) fn all_listed(alloc: Global, index: &IndexReader<'_>) -> Result<NumberList, IndexRefusal>
    ensures gives { Gives IsNoMemory (λ numbers. numbers) result
        (list_of index.now.lists (slice_get index.now.rows 0)) }
    ensures rises { IfOk result IsStrictlyIncreasing }
    ensures small { IfOk result (All (λ n. n < 2 ^ 32)) }
    ensures few { IfOk result (λ numbers. 4 * length numbers ≤ length index.now.lists.bytes) }
    ensures stand { OnOk result (ListsStand index.now (take 1 index.now.rows)) }
{
    if index.row_count() == 0 {
        return Ok(NumberList::new(alloc));
    }
    index.row_numbers(alloc, 0)
}

/// Reads the list of the row at a place.
fn read_row(
    alloc: Global,
    index: &IndexReader<'_>,
    place: usize,
) -> Result<NumberList, IndexRefusal>
    requires { place < length index.now.rows }
    ensures read { IfOk result (λ list. IsReadOn index.now place [] list) }
    ensures refused { IfErr result (λ e. (e ≡ IsNoMemory)
        ⊎ (list_of index.now.lists (slice_get index.now.rows place) ≡ Err e)) }
{
    index.row_numbers(alloc, place)
}

/// The list of the row of a name and a value, which is found by halving.
pub(crate) fn listed_in(
    alloc: Global,
    index: &IndexReader<'_>,
    name: &str,
    value: &str,
) -> Result<NumberList, IndexRefusal>
    ensures gives { Gives IsNoMemory (λ numbers. numbers) result
        (numbers_at index.now.lists (filter (is_row_of name.now value.now) index.now.rows)) }
    ensures rises { IfOk result IsStrictlyIncreasing }
    ensures stand { OnOk result
        (ListsStand index.now (filter (is_row_of name.now value.now) index.now.rows)) }
{
    match index.find_row(name, value) {
        Some(place) => read_row(alloc, index, place),
        None => Ok(NumberList::new(alloc)),
    }
}

/// Which of ascending numbers stand in the lists of the rows that decide what a matcher takes: they have its name, and a value
/// that it accepts, or one that it refuses. Each list is let go once its numbers are marked.
pub(crate) fn marked_under(
    alloc: Global,
    index: &IndexReader<'_>,
    matcher: &Matcher,
    searcher: &mut ConditionSearcher<'_>,
    wanted: bool,
    numbers: &[u64],
) -> Result<Vec<bool>, IndexRefusal>
    requires asks { condition_asked searcher.old ≡ matcher.now.condition }
    requires decides { wanted ≡ not (is_accepted matcher.now.condition []) }
    requires rise { IsStrictlyIncreasing numbers.now }
    ensures marked { MatchResult result (λ marks. AreMarked index.now.lists
        (filter (decides matcher.now) index.now.rows) numbers.now marks.items)
        (λ e. (e ≡ IsNoMemory)
        ⊎ (numbers_at index.now.lists (filter (decides matcher.now) index.now.rows) ≡ Err e)) }
    ensures stand { OnOk result
        (ListsStand index.now (filter (decides matcher.now) index.now.rows)) }
{
    let name = matcher.name.as_str();
    let mut marks = no_marks(alloc, numbers)?;
    for place in index.first_row(name)..index.row_count() {
        let Some(row) = index.row(place) else {
            return Ok(marks);
        };
        if row.0 != name {
            return Ok(marks);
        }
        if searcher.accepts(row.1) == wanted {
            let list = read_row(alloc, index, place)?;
            mark(&mut marks, numbers, list.members());
        }
    }
    Ok(marks)
}

/// A text that is not empty, and what goes with it.
fn some_text(text: &Text, wanted: bool) -> Option<(&str, bool)>
    ensures text { IfSome result (λ one. one.0.now ≡ text.now) }
    ensures wanted { IfSome result (λ one. one.1 ≡ wanted) }
    ensures some { IfSome result (λ one. text.now ≡ [] → ⊥) }
{
    let shown = text.as_str();
    if shown.is_empty() {
        return None;
    }
    Some((shown, wanted))
}

/// The only value whose row decides what `=` and `!=` with a text take, and whether that row's series are those taken.
pub(crate) fn only_value(condition: &Condition) -> Option<(&str, bool)>
    ensures { IfSome result (λ one. IsDecidedBy condition.now one.0.now one.1) }
{
    match condition {
        Condition::Equal(text) => some_text(text, true),
        Condition::NotEqual(text) => some_text(text, false),
        Condition::Matches(_) | Condition::MatchesNot(_) => None,
    }
}

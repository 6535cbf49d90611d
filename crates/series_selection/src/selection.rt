//! How a selector finds its series in an index without reading one: by postings lists alone, as Prometheus does it.
//! Where a matcher names an external label of the block, all its series have that value or none does.

ghost use Rattle.std.specs.Prelude.{◌≡◌, ◌⊎◌, ◌*◌, ◌^◌, ◌<◌, ◌≤◌, ℕ, List, [], All, length, Some, Ok, Err, IfOk, IfErr, IsOk, OnOk, MatchResult, true, if◌then◌else◌};
ghost use Rattle.std.specs.List.{Contains, filter, flat_map};
ghost use Rattle.std.specs.List.Sorted.{IsStrictlyIncreasing};
ghost use Rattle.base.specs.Reading.{Gives};
ghost use Rattle.label_sets.specs.Labels.{value_of};
ghost use Rattle.matchers.specs.declared.matcher.Matcher.{Matcher};
ghost use Rattle.matchers.specs.Selectors.{is_accepted};
ghost use Rattle.matchers.specs.SelectorText.{named_replicas};
ghost use Rattle.index_parts.specs.Postings.{IsPostings};
ghost use Rattle.index_parts.specs.declared.postings_row.PostingsRow.{PostingsRow};
ghost use Rattle.index_parts.specs.Parts.{file, HoldsSection};
ghost use Rattle.index_parts.specs.IndexFile.{IsIndex};
ghost use Rattle.index_parts.specs.Opened.{Opened};
ghost use Rattle.index_parts.specs.declared.index_series.IndexSeries.{IndexSeries};
ghost use Rattle.index_v2.specs.Held.{IsWhole, IsHeldOf};
ghost use Rattle.index_v2.specs.PostingsLists.{list_of};
ghost use Rattle.index_v2.specs.WholeReading.{lists_at};
ghost use Rattle.index_v2.specs.declared.refusal.IndexRefusal.{IndexRefusal};
ghost use Rattle.index_v2.specs.declared.refusal.IndexRefusal.TheVariants.{NoMemory};
ghost use Rattle.series_selection.specs.Selections.{decides, deciding, rows_read, IsSelection, AreMatching};
ghost use Rattle.series_selection.specs.SelectionSteps.{left_by, left_by_rows, left_at, selected_at, ListsStand, IsDecidedBy};

use crate::keeping::kept_numbers;
use crate::marking::kept_marked;
use crate::rows::{all_listed, listed_in, marked_under, only_value};
use index_v2::{IndexReader, IndexRefusal};
use label_sets::LabelSet;
use matchers::{Matcher, Selector};
use std::alloc::Global;
use wire_bytes::NumberList;

/// The numbers of the series that a selector takes from the index of a block with these external labels, ascending.
///
/// Read are the list of the first row and those of the rows that decide what a matcher takes, and no series. The row that
/// decides for `=` or `!=` with a text is found by halving. So is the first row of another matcher's name, and it is asked once
/// for each row of the name. It takes time in proportion to these rows and to the bytes of the lists, and where a matcher reads
/// several lists, to their numbers times the logarithm of how many series are left. The time is reckoned and not proved.
///
/// Beside the numbers of the first row it holds a mark for each and one list at a time, however many rows share a list (that is
/// how it is written, and no clause).
pub fn select_postings(
    alloc: Global,
    index: &IndexReader<'_>,
    selector: &Selector,
    external: &LabelSet,
) -> Result<NumberList, IndexRefusal>
    // What is answered is exactly what the selector takes, by the lists that the reader reads.
    ensures selects { IfOk result (λ numbers. IsSelection
        (λ row listed. list_of index.now.lists (Some row) ≡ Ok listed) index.now.rows external.now
        selector.now numbers) }

    // It is answered exactly where each list that decides is read, unless memory runs out; and else the first refusal, in the
    // order of these rows.
    ensures read { OnOk result (IsOk
        (lists_at index.now.lists (rows_read external.now index.now.rows selector.now))) }
    ensures refused { IfErr result (λ e. (e ≡ NoMemory)
        ⊎ (lists_at index.now.lists (rows_read external.now index.now.rows selector.now) ≡ Err e)) }

    // The numbers have 32 bits, and are no more than one list can have.
    ensures small { IfOk result (All (λ n. n < 2 ^ 32)) }
    ensures few { IfOk result (λ numbers. 4 * length numbers ≤ length index.now.lists.bytes) }

    // Over the whole of an opened index, or over parts of it, it is what the selector takes by the lists that stand there.
    ensures found { (opened : Opened) → IsHeldOf index.now opened
        → IfOk result (λ numbers. IsSelection
        (λ row listed. IsPostings opened.bytes row.offset listed) opened.rows external.now
        selector.now numbers) }

    // Where the lists of these rows lie in what is held, the refusal is that of the whole index too.
    ensures same { (opened : Opened) → IsHeldOf index.now opened
        → ((row : PostingsRow)
        → Contains (rows_read external.now index.now.rows selector.now) row
        → HoldsSection index.now.lists row.offset)
        → IfErr result (λ e. (e ≡ NoMemory)
        ⊎ (lists_at (file opened.bytes) (rows_read external.now opened.rows selector.now)
        ≡ Err e)) }

    // In an index of a list of series these are exactly the numbers of the series whose final labels match, whatever replica
    // labels are left out that the selector does not name. Where the lists lie in what is held, as they do in a whole file,
    // nothing but memory is wanting.
    ensures matching { (bytes : List ℕ) (list : List IndexSeries) (is : IsIndex bytes list)
        → IsHeldOf index.now is.opened
        → (replicas : List (List ℕ)) → named_replicas replicas selector.now ≡ []
        → IfOk result (λ numbers.
        AreMatching is.listed external.now replicas selector.now numbers) }
    ensures wanting { (bytes : List ℕ) (list : List IndexSeries) (is : IsIndex bytes list)
        → IsHeldOf index.now is.opened
        → ((row : PostingsRow)
        → Contains (rows_read external.now index.now.rows selector.now) row
        → HoldsSection index.now.lists row.offset)
        → IfErr result (λ e. e ≡ NoMemory) }
    ensures agrees { IsWhole index.now
        → (list : List IndexSeries) (is : IsIndex index.now.bytes list)
        → (replicas : List (List ℕ)) → named_replicas replicas selector.now ≡ []
        → MatchResult result (λ numbers.
        AreMatching is.listed external.now replicas selector.now numbers) (λ e. e ≡ NoMemory) }
{
    selected_numbers(alloc, index, selector, external)
}

/// What each matcher leaves of the numbers of all series.
#[tactic(auto, unfolding(crate::specs::SelectionSteps::selected_at))]
fn selected_numbers(
    alloc: Global,
    index: &IndexReader<'_>,
    selector: &Selector,
    external: &LabelSet,
) -> Result<NumberList, IndexRefusal>
    ensures gives { Gives NoMemory (λ numbers. numbers) result
        (selected_at index.now external.now selector.now) }
    ensures rises { IfOk result IsStrictlyIncreasing }
    ensures small { IfOk result (All (λ n. n < 2 ^ 32)) }
    ensures few { IfOk result (λ numbers. 4 * length numbers ≤ length index.now.lists.bytes) }
    ensures stand { OnOk result
        (ListsStand index.now (rows_read external.now index.now.rows selector.now)) }
{
    let listed = all_listed(alloc, index)?;
    left_by_all(alloc, index, selector.matchers(), external, listed)
}

/// What matchers leave of numbers.
fn left_by_all(
    alloc: Global,
    index: &IndexReader<'_>,
    matchers: &[Matcher],
    external: &LabelSet,
    numbers: NumberList,
) -> Result<NumberList, IndexRefusal>
    requires { IsStrictlyIncreasing numbers }
    ensures gives { Gives NoMemory (λ left. left) result
        (left_at index.now external.now matchers.now numbers) }
    ensures rises { IfOk result IsStrictlyIncreasing }
    ensures stand { OnOk result (ListsStand index.now
        (flat_map (deciding external.now index.now.rows) matchers.now)) }
{
    let mut left = numbers;
    for matcher in matchers {
        left = left_by(alloc, index, matcher, external, left)?;
    }
    Ok(left)
}

/// What a matcher leaves of numbers: by the external label of its name, or else by the rows.
fn left_by(
    alloc: Global,
    index: &IndexReader<'_>,
    matcher: &Matcher,
    external: &LabelSet,
    numbers: NumberList,
) -> Result<NumberList, IndexRefusal>
    requires { IsStrictlyIncreasing numbers }
    ensures gives { Gives NoMemory (λ left. left) result
        (left_by (value_of external.now matcher.now.name) index.now.lists index.now.rows
        matcher.now numbers) }
    ensures rises { IfOk result IsStrictlyIncreasing }
    ensures stand { OnOk result
        (ListsStand index.now (deciding external.now index.now.rows matcher.now)) }
{
    match external.value(matcher.name.as_str()) {
        Some(value) => left_by_value(alloc, matcher, value, numbers),
        None => left_by_rows(alloc, index, matcher, numbers),
    }
}

/// All of the numbers, where the matcher accepts the value, and else none.
fn left_by_value(
    alloc: Global,
    matcher: &Matcher,
    value: &str,
    numbers: NumberList,
) -> Result<NumberList, IndexRefusal>
    requires { IsStrictlyIncreasing numbers }
    ensures value { IfOk result (λ left. left
        ≡ (if is_accepted matcher.now.condition value.now then numbers else [])) }
    ensures rises { IfOk result IsStrictlyIncreasing }
    ensures refused { IfErr result (λ e. e ≡ NoMemory) }
{
    if matcher.condition.accepts(value)? {
        return Ok(numbers);
    }
    Ok(NumberList::new(alloc))
}

/// Those of the numbers that stand in a row whose value the matcher accepts. Where it accepts the empty value, which a missing
/// label has, those that stand in no row whose value it refuses. A matcher with one text looks its row up. Another is asked once
/// for each row of its name.
fn left_by_rows(
    alloc: Global,
    index: &IndexReader<'_>,
    matcher: &Matcher,
    numbers: NumberList,
) -> Result<NumberList, IndexRefusal>
    requires { IsStrictlyIncreasing numbers }
    ensures gives { Gives NoMemory (λ left. left) result
        (left_by_rows index.now.lists index.now.rows matcher.now numbers) }
    ensures rises { IfOk result IsStrictlyIncreasing }
    ensures stand { OnOk result
        (ListsStand index.now (filter (decides matcher.now) index.now.rows)) }
{
    match only_value(&matcher.condition) {
        Some((value, wanted)) => left_by_one(alloc, index, matcher, value, wanted, numbers),
        None => left_by_asking(alloc, index, matcher, numbers),
    }
}

/// By the list of the one row that decides.
fn left_by_one(
    alloc: Global,
    index: &IndexReader<'_>,
    matcher: &Matcher,
    value: &str,
    wanted: bool,
    numbers: NumberList,
) -> Result<NumberList, IndexRefusal>
    requires decided { IsDecidedBy matcher.now.condition value.now wanted }
    requires rise { IsStrictlyIncreasing numbers }
    ensures gives { Gives NoMemory (λ left. left) result
        (left_by_rows index.now.lists index.now.rows matcher.now numbers) }
    ensures rises { IfOk result IsStrictlyIncreasing }
    ensures stand { OnOk result
        (ListsStand index.now (filter (decides matcher.now) index.now.rows)) }
{
    let listed = listed_in(alloc, index, matcher.name.as_str(), value)?;
    Ok(kept_numbers(alloc, wanted, listed.members(), numbers.members())?)
}

/// By the lists of the rows that decide, where each row of the name is asked.
fn left_by_asking(
    alloc: Global,
    index: &IndexReader<'_>,
    matcher: &Matcher,
    numbers: NumberList,
) -> Result<NumberList, IndexRefusal>
    requires { IsStrictlyIncreasing numbers }
    ensures gives { Gives NoMemory (λ left. left) result
        (left_by_rows index.now.lists index.now.rows matcher.now numbers) }
    ensures rises { IfOk result IsStrictlyIncreasing }
    ensures stand { OnOk result
        (ListsStand index.now (filter (decides matcher.now) index.now.rows)) }
{
    let mut searcher = matcher.condition.searcher()?;
    let wanted = !searcher.accepts("");
    let marks = marked_under(
        alloc,
        index,
        matcher,
        &mut searcher,
        wanted,
        numbers.members(),
    )?;
    Ok(kept_marked(alloc, wanted, marks.as_slice(), numbers.members())?)
}

//! Which of ascending numbers stand in lists. The lists come one after another, and nothing is kept of them but the marks: so a
//! matcher holds no more than its numbers and one list, however many rows share it.

ghost use Rattle.std.specs.Prelude.{◌≡◌, ◌++◌, ◌∷◌, [], ℕ, List, length, IfOk, OnOk, if◌then◌else◌};
ghost use Rattle.std.specs.List.Sorted.{IsStrictlyIncreasing};
ghost use Rattle.series_selection.specs.SelectionSteps.{kept_numbers, marks_of};

use base::NoMemory;
use std::alloc::Global;
use wire_bytes::NumberList;

/// Before any list has come, no number is marked.
pub(crate) fn no_marks(alloc: Global, numbers: &[u64]) -> Result<Vec<bool>, NoMemory>
    ensures { IfOk result (λ marks. marks.items ≡ marks_of [] numbers.now) }
{
    Ok(vec![in alloc; false; numbers.len()]?)
}

/// Marks a number where it is one of those that ascend.
fn mark_one(marks: &mut Vec<bool>, numbers: &[u64], number: u64)
    requires rise { IsStrictlyIncreasing numbers.now }
    requires as_many { length marks.old.items ≡ length numbers.now }
    ensures as_many { length marks.new.items ≡ length numbers.now }
    ensures marked { (full : List ℕ) → marks.old.items ≡ marks_of full numbers.now
        → marks.new.items ≡ marks_of (full ++ number ∷ []) numbers.now }
{
    match numbers.binary_search(&number) {
        Ok(place) => marks[place] = true,
        Err(_) => {}
    }
}

/// Marks those of ascending numbers that a list has.
pub(crate) fn mark(marks: &mut Vec<bool>, numbers: &[u64], list: &[u64])
    requires rise { IsStrictlyIncreasing numbers.now }
    requires as_many { length marks.old.items ≡ length numbers.now }
    ensures { (full : List ℕ) → marks.old.items ≡ marks_of full numbers.now
        → marks.new.items ≡ marks_of (full ++ list.now) numbers.now }
{
    for number in list {
        mark_one(marks, numbers, *number);
    }
}

/// Those of the numbers that are marked, or those that are not.
pub(crate) fn kept_marked(
    alloc: Global,
    wanted: bool,
    marks: &[bool],
    numbers: &[u64],
) -> Result<NumberList, NoMemory>
    requires { length marks.now ≡ length numbers.now }
    ensures { IfOk result (λ left. (full : List ℕ) → marks.now ≡ marks_of full numbers.now
        → left ≡ kept_numbers wanted full numbers.now) }
{
    let mut left = Vec::new(alloc);
    for place in 0..numbers.len() {
        keep_where(&mut left, marks[place] == wanted, numbers[place])?;
    }
    Ok(NumberList::from_vec(left))
}

/// Puts a number behind others, or leaves them as they are.
fn keep_where(left: &mut Vec<u64>, is: bool, number: u64) -> Result<(), NoMemory>
    ensures { OnOk result (left.new.items
        ≡ (if is then left.old.items ++ number ∷ [] else left.old.items)) }
{
    if is {
        left.push(number)?;
    }
    Ok(())
}

//! How the symbol numbers of a series become its labels, which have to be a label set. Where a number is refused those
//! behind it are still read, since bytes that cannot be read are named before what they say.

ghost use Rattle.std.specs.Prelude.{◌≡◌, ◌*◌, ◌<◌, ℕ, List, [], length, map, Ok, Err, Some, IfSome, MatchResult, slice_get};
ghost use Rattle.std.specs.Option.{option_copied};
ghost use Rattle.std.specs.Result.{result_map_both};
ghost use Rattle.std.specs.Ordering.{is_lt};
ghost use Rattle.base.specs.Reading.{Answers, Gives};
ghost use Rattle.label_sets.specs.Labels.{compare_texts};
ghost use Rattle.index_v2.specs.LentLabels.{as_label};
ghost use Rattle.index_v2.specs.Ranks.{AreSymbols, name_before};
ghost use Rattle.index_v2.specs.SeriesLabels.{label_of, texts_at, faulty_at};

use crate::LentLabel;
use crate::symbols::Symbols;
use index_parts::{PartRefusal, RawLabel, next_label};
use wire_bytes::Cursor;

/// Whether the name of a symbol number may stand behind that of another one, or first. Symbols ascend.
#[inline(always)]
fn may_stand_behind(before: Option<u64>, number: u64, name: &str) -> bool
    ensures { (symbols : List (List ℕ)) → AreSymbols symbols
        → slice_get symbols number ≡ Some name.now
        → IfSome before (λ n. n < length symbols)
        → result ≡ is_lt (compare_texts (name_before symbols before) name.now) }
{
    match before {
        None => !name.is_empty(),
        Some(before) => before < number,
    }
}

/// The texts of a label: the name is above the one before it, and the value is not empty.
#[inline(always)]
#[tactic(auto, unfolding(crate::specs::SeriesLabels::label_of))]
fn label_of<'a>(
    symbols: &Symbols<'a>,
    before: Option<u64>,
    label: RawLabel,
) -> Result<LentLabel<'a>, PartRefusal>
    requires { IfSome before (λ n. n < length symbols.now) }
    ensures { Answers as_label result (label_of symbols.now (name_before symbols.now before) label) }
{
    let name = match symbols.get(label.name.number) {
        Some(name) if may_stand_behind(before, label.name.number, name) => name,
        _ => return Err(PartRefusal::Unordered(label.name.place)),
    };
    match symbols.get(label.value.number) {
        Some(value) if !value.is_empty() => Ok(LentLabel { name, value }),
        _ => Err(PartRefusal::Unordered(label.value.place)),
    }
}

/// For how many labels a list begins with room: for so many, where the bytes that are left can hold them.
fn room_for(count: u64, left: usize) -> usize {
    let most = left / 2;
    if count < most as u64 {
        count as usize
    } else {
        most
    }
}

/// The texts of so many labels, in place of those that the list has, or the refusal of one of their symbol numbers; and what
/// follows the numbers.
#[inline(always)]
pub(crate) fn texts_of<'a, 'b>(
    symbols: &Symbols<'a>,
    count: u64,
    mut cursor: Cursor<'b>,
    mut labels: Vec<LentLabel<'a>>,
) -> Result<(Result<Vec<LentLabel<'a>>, PartRefusal>, Cursor<'b>), PartRefusal>
    ensures { Gives PartRefusal.NoMemory
        (λ x. (result_map_both (λ labels. map as_label labels.items) (λ refusal. refusal) x.0, x.1))
        result (texts_at symbols.now [] count cursor.entry) }
{
    labels.clear();
    labels.reserve_exact(room_for(count, cursor.rest().len()))?;
    let mut before = None;
    for place in 0..count {
        let (label, rest) = next_label(cursor)?;
        cursor = rest;
        match label_of(symbols, before, label) {
            Ok(read) => {
                labels.push(read)?;
                before = Some(label.name.number);
            }
            Err(refusal) => return after_fault(refusal, count - place - 1, cursor),
        }
    }
    Ok((Ok(labels), cursor))
}

/// Passes the labels behind one that is refused, so that what cannot be read there is told first.
#[inline(never)]
fn after_fault<'a, 'b>(
    refusal: PartRefusal,
    count: u64,
    mut cursor: Cursor<'b>,
) -> Result<(Result<Vec<LentLabel<'a>>, PartRefusal>, Cursor<'b>), PartRefusal>
    ensures { Answers
        (λ x. (result_map_both (λ labels. map as_label labels.items) (λ refusal. refusal) x.0, x.1))
        result (faulty_at refusal count cursor.entry) }
{
    for _ in 0..count {
        (_, cursor) = next_label(cursor)?;
    }
    Ok((Err(refusal), cursor))
}

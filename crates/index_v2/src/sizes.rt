//! How long series and lists are said to be, before they are read: so no more is read than an index's bytes allow.

ghost use Rattle.std.specs.Prelude.{◌≡◌, ◌*◌, ◌^◌, ◌<◌, nat_le, IfSome};
ghost use Rattle.base.specs.Reading.{Answers};
ghost use Rattle.std.specs.Int.{w32};
ghost use Rattle.wire_bytes.specs.Fields.{number_at};
ghost use Rattle.index_parts.specs.Placed.{at_place};
ghost use Rattle.index_parts.specs.Parts.{part_of, told, list_size, lists_size};
ghost use Rattle.index_parts.specs.IndexFile.{labels_of};
ghost use Rattle.index_v2.specs.Sizes.{series_bytes};
ghost use Rattle.index_v2.specs.WholeReading.{stands_behind, few_at};

use crate::postings::POSTINGS;
use crate::{IndexRefusal, LentSeries};
use index_parts::{IndexPart, PartRefusal, Rows, SERIES_UNIT, Toc};
use wire_bytes::Cursor;

/// How many bytes the content of the series of a number is said to take.
fn series_bytes(index: &[u8], number: u64) -> u64
    requires { number < 2 ^ 32 }
    ensures { result ≡ series_bytes index.now number }
{
    let at = SERIES_UNIT * number;
    if at > index.len() as u64 {
        return 0;
    }
    let mut cursor = Cursor::at(index, at as usize);
    cursor.take_uvarint().unwrap_or(0)
}

/// Whether the series of a number stands behind what that of another number holds, or first.
pub(crate) fn stands_behind(index: &[u8], before: Option<u64>, number: u64) -> bool
    requires small { number < 2 ^ 32 }
    requires also { IfSome before (λ last. last < 2 ^ 32) }
    ensures { result ≡ stands_behind index.now before number }
{
    let Some(before) = before else {
        return true;
    };
    match (SERIES_UNIT * before).checked_add(series_bytes(index, before)) {
        Some(end) => end <= SERIES_UNIT * number,
        None => false,
    }
}

/// How many bytes the content of the postings list at a place is said to have.
fn list_size(part: IndexPart<'_>, at: u64) -> u32
    ensures { result ≡ list_size (part_of part.entry) at }
{
    if at < part.begin {
        return 0;
    }
    size_at(part.bytes, at - part.begin)
}

/// The number that four bytes at a place make, or 0 where fewer are left.
fn size_at(bytes: &[u8], at: u64) -> u32
    ensures { result ≡ told (number_at w32 (at_place bytes.now at)) }
{
    if at > bytes.len() as u64 {
        return 0;
    }
    let mut cursor = Cursor::at(bytes, at as usize);
    cursor.take_u32().unwrap_or(0)
}

/// Whether the lists of rows, each as often as a row names it, have no more than so many bytes.
fn have_at_most(part: IndexPart<'_>, rows: &Rows<'_>, most: u128) -> bool
    ensures { result ≡ nat_le (lists_size (part_of part.entry) rows.now) most }
{
    let mut left = most;
    for place in 0..rows.len() {
        let Some(row) = rows.get(place) else {
            return true;
        };
        let size = u128::from(list_size(part, row.2));
        if size > left {
            return false;
        }
        left -= size;
    }
    true
}

/// How many labels series have together.
fn label_count(series: &[LentSeries<'_>]) -> usize
    requires { labels_of series.now < 2 ^ 64 }
    ensures { result ≡ labels_of series.now }
{
    let mut count = 0;
    for one in series {
        count += one.labels().len();
    }
    count
}

/// Tests from their lengths alone that the lists of rows are few for the rows, the labels of the series and the bytes before
/// the table.
#[tactic(auto, unfolding(crate::specs::WholeReading::few_at))]
pub(crate) fn test_lists(
    toc: &Toc,
    part: IndexPart<'_>,
    rows: &Rows<'_>,
    series: &[LentSeries<'_>],
) -> Result<(), IndexRefusal>
    requires { labels_of series.now < 2 ^ 64 }
    ensures { Answers (λ x. x) result (few_at toc.now (part_of part.entry) rows.now series.now) }
{
    let labels = label_count(series) as u128;
    let most = 8 * (u128::from(toc.postings_table) + rows.len() as u128 + labels);
    if have_at_most(part, rows, most) {
        return Ok(());
    }
    Err(IndexRefusal::BadSection(POSTINGS, PartRefusal::Unordered(toc.postings)))
}

//! The table that leads from a label to its postings list, with the list of all series in its first row (Prometheus:
//! postings offset table). Rows mostly have the name of the row before them, which is then not tested anew.

ghost use Rattle.std.specs.Prelude.{◌≡◌, ◌⊎◌, ◌≤◌, ◌-◌, ◌*◌, true, List, ℕ, length, map, slice_get, IfOk, Err, Ok, Some, MatchResult, option_map, if◌then◌else◌};
ghost use Rattle.std.specs.Str.{is_utf8};
ghost use Rattle.std.specs.Ordering.{is_lt};
ghost use Rattle.std.specs.Result.{IsOkAnd};
ghost use Rattle.base.specs.Reading.{Answers, Gives};
ghost use Rattle.base.specs.Grammar.{IsBytes};
ghost use Rattle.label_sets.specs.Labels.{compare_texts};
ghost use Rattle.index_parts.specs.declared.postings_row.PostingsRow.{PostingsRow};
ghost use Rattle.index_parts.specs.Lent.{row_of, row_before, fields_tell};
ghost use Rattle.index_parts.specs.Rows.{IsPostingsTable};
ghost use Rattle.index_parts.specs.RowsReading.{may_come_after, postings_table_at};

use crate::PartRefusal;
use crate::fields::{next_text, next_u8, next_uvarint, text_of};
use crate::list_reading::{Member, list_of};
use crate::postings_row::{PostingsRow, ROW_KIND};
use std::alloc::Global;
use std::cmp::Ordering;
use std::marker::Model;
use wire_bytes::Cursor;

/// A row of a postings table, which lends the index's bytes.
#[derive(Clone, Copy)]
pub(crate) struct LentRow<'a> {
    pub name: &'a str,
    pub value: &'a str,
    pub offset: u64,
}

/// The fields of a row as they stand: the bytes of its texts, where these end, and where the row begins.
#[derive(Clone, Copy)]
pub(crate) struct RowFields<'a> {
    pub(crate) place: u64,
    pub(crate) name: &'a [u8],
    pub(crate) name_end: usize,
    pub(crate) value: &'a [u8],
    pub(crate) value_end: usize,
    pub(crate) offset: u64,
}

/// How many bytes a row takes, as a guess at how many there are.
const USUAL_SIZE: usize = 16;

/// The rows of a postings table, which lend the index's bytes.
#[derive(Drop)]
pub struct PostingsTable<'a> {
    rows: Vec<LentRow<'a>>,
}

impl<'a> Model for PostingsTable<'a> {
    ghost use Rattle.std.specs.Prelude.{List, map};
    ghost use Rattle.index_parts.specs.declared.postings_row.PostingsRow.{PostingsRow};
    ghost use Rattle.index_parts.specs.Lent.{row_of};

    ghost Value = { List PostingsRow };

    ghost view = { λ t. map row_of t.rows.items };
}

impl<'a> PostingsTable<'a> {
    /// How many rows there are.
    pub fn len(&self) -> usize
        ensures { result ≡ length self.now }
    {
        self.rows.len()
    }

    /// The name, the value and the place of a row.
    pub fn get(&self, place: usize) -> Option<(&'a str, &'a str, u64)>
        ensures { option_map
            (λ row. record { name = row.0.now; value = row.1.now; offset = row.2 }) result
            ≡ slice_get self.now place }
    {
        match self.rows.get(place) {
            None => None,
            Some(row) => Some((row.name, row.value, row.offset)),
        }
    }
}

/// Whether a row of this name and value may stand behind another, or first.
#[inline(always)]
fn may_come_after(before: Option<LentRow<'_>>, name: &str, value: &str) -> bool
    ensures { (offset : ℕ) → result ≡ may_come_after (row_before before.entry)
        (record { name = name.now; value = value.now; offset = offset }) }
{
    let Some(row) = before else {
        return name.is_empty() && value.is_empty();
    };
    match row.name.cmp(name) {
        Ordering::Less => true,
        Ordering::Equal => row.value < value,
        Ordering::Greater => false,
    }
}

/// Whether a row of these bytes, of which some are no text, may stand behind another, or first.
fn may_bytes_come_after(before: Option<LentRow<'_>>, name: &[u8], value: &[u8]) -> bool
    ensures { (offset : ℕ) → result ≡ may_come_after (row_before before.entry)
        (record { name = name.now; value = value.now; offset = offset }) }
{
    let Some(row) = before else {
        return name.is_empty() && value.is_empty();
    };
    match row.name.as_bytes().cmp(name) {
        Ordering::Less => true,
        Ordering::Equal => row.value.as_bytes().cmp(value).is_lt(),
        Ordering::Greater => false,
    }
}

/// A row of the name of the row before it, which is taken as it is. Its order is tested, and then its value.
#[inline(always)]
#[tactic(auto, using(crate::proofs::Texts::utf8_tests))]
fn row_of_same_name<'a>(
    before: LentRow<'a>,
    fields: RowFields<'a>,
) -> Result<LentRow<'a>, PartRefusal>
    requires same { before.name.now ≡ fields.name.now }
    requires name { is_utf8 fields.name.now ≡ true }
    requires value { length fields.value.now ≤ fields.value_end }
    ensures { Answers row_of result (fields_tell (Some before.entry) fields.entry) }
{
    match text_of(fields.value, fields.value_end) {
        Ok(value) if before.value < value => Ok(LentRow {
            name: before.name,
            value,
            offset: fields.offset,
        }),
        Err(refusal) if before.value.as_bytes().cmp(fields.value).is_lt() => Err(refusal),
        _ => Err(PartRefusal::Unordered(fields.place)),
    }
}

/// A row of another name. Its order is tested, and then its texts.
#[inline(always)]
fn row_of_other_name<'a>(
    before: Option<LentRow<'a>>,
    fields: RowFields<'a>,
) -> Result<LentRow<'a>, PartRefusal>
    requires name { length fields.name.now ≤ fields.name_end }
    requires value { length fields.value.now ≤ fields.value_end }
    ensures { Answers row_of result (fields_tell before.entry fields.entry) }
{
    let name = text_of(fields.name, fields.name_end);
    let value = text_of(fields.value, fields.value_end);
    match (name, value) {
        (Ok(name), Ok(value)) if may_come_after(before, name, value) => Ok(LentRow {
            name,
            value,
            offset: fields.offset,
        }),
        (Err(refusal), _) | (Ok(_), Err(refusal))
            if may_bytes_come_after(before, fields.name, fields.value) => { Err(refusal) }
        _ => Err(PartRefusal::Unordered(fields.place)),
    }
}

/// A row of these fields. Mostly it begins with the name of the row before it.
#[inline(always)]
fn row_of_fields<'a>(
    before: Option<LentRow<'a>>,
    fields: RowFields<'a>,
) -> Result<LentRow<'a>, PartRefusal>
    requires name { length fields.name.now ≤ fields.name_end }
    requires value { length fields.value.now ≤ fields.value_end }
    ensures { Answers row_of result (fields_tell before.entry fields.entry) }
{
    match before {
        Some(row) if row.name.as_bytes() == fields.name => row_of_same_name(row, fields),
        _ => row_of_other_name(before, fields),
    }
}

impl<'a> Member<'a> for LentRow<'a> {
    ghost use Rattle.index_parts.specs.Lent.{row_of, row_before};
    ghost use Rattle.index_parts.specs.RowsReading.{row_at};
    ghost use Rattle.index_parts.specs.Moves.{MovesOnTo};

    type Owned = PostingsRow;

    ghost said = { row_of };

    ghost reads = { row_at };

    /// The next row. All its fields are read, then its order is tested, and then its texts.
    #[inline(always)]
    #[tactic(auto, unfolding(crate::specs::RowsReading::row_at))]
    fn next(cursor: &mut Cursor<'a>, before: Option<Self>) -> Result<Self, PartRefusal>
        ensures { MovesOnTo row_of cursor.new result
            (row_at (row_before before.entry, cursor.old)) }
    {
        let place = cursor.place() as u64;
        if next_u8(cursor)? != ROW_KIND {
            return Err(PartRefusal::Unordered(place));
        }
        let name = next_text(cursor)?;
        let name_end = cursor.place();
        let value = next_text(cursor)?;
        let value_end = cursor.place();
        let offset = next_uvarint(cursor)?;
        let fields = RowFields {
            place,
            name,
            name_end,
            value,
            value_end,
            offset,
        };
        row_of_fields(before, fields)
    }
}

fn table_of<'a>(alloc: Global, index: &'a [u8], at: u64) -> Result<PostingsTable<'a>, PartRefusal>
    ensures exact { Gives PartRefusal.NoMemory (λ table. table) result
        (postings_table_at index.now at) }
    ensures bytes { IsBytes index.now }
{
    let rows = list_of(alloc, index, at, USUAL_SIZE)?;
    Ok(PostingsTable { rows })
}

/// Reads the postings table at a place. Bytes that follow the last row are passed over.
pub fn read_postings_table<'a>(
    alloc: Global,
    index: &'a [u8],
    at: u64,
) -> Result<PostingsTable<'a>, PartRefusal>
    // What is read is what stands there, and what stands there is read.
    ensures found { IfOk result (λ table. IsPostingsTable index.now at table) }
    ensures only { (rows : List PostingsRow) → IsPostingsTable index.now at rows
        → IsOkAnd result (λ table. table ≡ rows) ⊎ (result ≡ Err PartRefusal.NoMemory) }

    // The first refusal.
    ensures exact { Gives PartRefusal.NoMemory (λ table. table) result
        (postings_table_at index.now at) }
    ensures few { IfOk result (λ table. 4 * length table ≤ length index.now) }
{
    table_of(alloc, index, at)
}

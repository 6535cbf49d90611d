//! How the postings table is asked: for a name and a value, or for where the rows of a name begin.

ghost use Rattle.std.specs.Prelude.{◌≡◌, ◌<◌, ◌^◌, [], length, option_map, slice_get, IfOk, IfErr};
ghost use Rattle.std.specs.List.Sorted.{IsStrictlySortedBy};
ghost use Rattle.index_parts.specs.Rows.{compare_rows};
ghost use Rattle.index_parts.specs.RowOrder.{compare_row, IsRowAt, StandsAt, BeginsAt};

use crate::PostingsTable;
use std::cmp::Ordering;
use std::marker::Model;

/// The rows of an index's postings table, of which there are none where the table is absent.
#[derive(Drop)]
pub struct Rows<'a> {
    table: Option<PostingsTable<'a>>,
}

impl<'a> Model for Rows<'a> {
    ghost use Rattle.std.specs.Prelude.{List, [], unwrap_or, length, ◌<◌, ◌^◌};
    ghost use Rattle.index_parts.specs.declared.postings_row.PostingsRow.{PostingsRow};
    ghost use Rattle.std.specs.List.Sorted.{IsStrictlySortedBy};
    ghost use Rattle.index_parts.specs.Rows.{compare_rows};

    ghost Value = { List PostingsRow };

    ghost view = { λ r. unwrap_or r.table [] };

    ghost invariant = { λ r.
        IsStrictlySortedBy compare_rows (unwrap_or r.table [])
        × (length (unwrap_or r.table []) < 2 ^ 32) };
}

impl<'a> Rows<'a> {
    /// No rows.
    pub fn none() -> Rows<'a>
        ensures { result ≡ [] }
    {
        Rows { table: None }
    }

    /// The rows of a table.
    pub fn of_table(table: PostingsTable<'a>) -> Rows<'a>
        requires ascending { IsStrictlySortedBy compare_rows table }
        requires small { length table < 2 ^ 32 }
        ensures { result ≡ table.entry }
    {
        Rows { table: Some(table) }
    }

    /// How many there are.
    pub fn len(&self) -> usize
        ensures value { result ≡ length self.now }
        ensures small { length self.now < 2 ^ 32 }
    {
        match &self.table {
            None => 0,
            Some(table) => table.len(),
        }
    }

    /// The name, the value and the place of a row.
    #[inline(always)]
    pub fn get(&self, place: usize) -> Option<(&'a str, &'a str, u64)>
        ensures { option_map
            (λ row. record { name = row.0.now; value = row.1.now; offset = row.2 }) result
            ≡ slice_get self.now place }
    {
        match &self.table {
            None => None,
            Some(table) => table.get(place),
        }
    }

    /// The place of the row of a name and a value, or the place where it would stand.
    pub fn place_of(&self, name: &str, value: &str) -> Result<usize, usize>
        ensures found { IfOk result (λ place. IsRowAt self.now name.now value.now place) }
        ensures absent { IfErr result (λ place. StandsAt self.now name.now value.now place) }
        ensures ascending { IsStrictlySortedBy compare_rows self.now }
    {
        match &self.table {
            None => Err(0),
            Some(table) => place_of(table, name, value),
        }
    }

    /// The place at which the rows of a name begin, or would begin.
    pub fn first_of(&self, name: &str) -> usize
        ensures begins { BeginsAt self.now name.now result }
        ensures ascending { IsStrictlySortedBy compare_rows self.now }
    {
        match self.place_of(name, "") {
            Ok(place) => place,
            Err(place) => place,
        }
    }
}

/// The order of rows: by name and then by value.
#[inline(always)]
fn compare_row(row: (&str, &str, u64), name: &str, value: &str) -> Ordering
    ensures { result
        ≡ compare_row
        (record { name = row.entry.0.now; value = row.entry.1.now; offset = row.entry.2 }) name.now
        value.now }
{
    match row.0.cmp(name) {
        Ordering::Equal => row.1.cmp(value),
        order => order,
    }
}

/// The place of the row of a name and a value, or the place where it would stand.
fn place_of(rows: &PostingsTable<'_>, name: &str, value: &str) -> Result<usize, usize>
    requires { IsStrictlySortedBy compare_rows rows.now }
    ensures found { IfOk result (λ place. IsRowAt rows.now name.now value.now place) }
    ensures absent { IfErr result (λ place. StandsAt rows.now name.now value.now place) }
{
    let mut low = 0;
    let mut high = rows.len();
    while low < high {
        let middle = low + (high - low) / 2;
        let Some(row) = rows.get(middle) else {
            return Err(low);
        };
        match compare_row(row, name, value) {
            Ordering::Less => low = middle + 1,
            Ordering::Equal => return Ok(middle),
            Ordering::Greater => high = middle,
        }
    }
    Err(low)
}

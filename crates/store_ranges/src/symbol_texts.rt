//! The symbols of an index, kept without its bytes.
ghost use Rattle.std.specs.Prelude.{◌≡◌, ◌<◌, ◌++◌, ◌∷◌, [], length, slice_get, Some, IfOk, OnOk};
ghost use Rattle.std.specs.Option.{option_copied};
ghost use Rattle.std.specs.String.{string_bytes};
ghost use Rattle.store_ranges.specs.TextPlaces.{text_at, texts_at, IsTextAt, AreTextsAt};

use crate::Span;
use base::NoMemory;
use index_parts::SymbolTable;
use std::alloc::Global;
use std::marker::Model;

/// The texts of symbols, which lend nothing: they stand one behind another in one text.
#[derive(Drop)]
pub struct SymbolTexts {
    all: String,
    places: Vec<Span>,
}

impl Model for SymbolTexts {
    ghost use Rattle.std.specs.Prelude.{List, ℕ};
    ghost use Rattle.std.specs.String.{string_bytes};
    ghost use Rattle.store_ranges.specs.TextPlaces.{AreTextsAt, texts_at};

    ghost Value = { List (List ℕ) };

    ghost view = { λ s. texts_at (string_bytes s.all) s.places.items };

    ghost invariant = { λ s. AreTextsAt (string_bytes s.all) s.places.items };
}

impl SymbolTexts {
    /// Copies the texts of a table.
    pub fn of_table(alloc: Global, table: &SymbolTable<'_>) -> Result<Self, NoMemory>
        ensures { IfOk result (λ texts. texts ≡ table.now) }
    {
        let (all, places) = texts_of_table(alloc, table)?;
        Ok(SymbolTexts { all, places })
    }

    /// The text of a symbol number.
    pub fn get(&self, number: u64) -> Option<&str>
        ensures { option_copied result ≡ slice_get self.now number }
    {
        text_of(self.all.as_str(), self.places.as_slice(), number)
    }
}

/// The texts of a table, one behind another, and where they stand.
fn texts_of_table(alloc: Global, table: &SymbolTable<'_>) -> Result<(String, Vec<Span>), NoMemory>
    ensures texts { IfOk result (λ x. AreTextsAt (string_bytes x.0) x.1.items) }
    ensures value { IfOk result (λ x. texts_at (string_bytes x.0) x.1.items ≡ table.now) }
{
    let mut all = String::new(alloc);
    let mut places = Vec::with_capacity(alloc, table.len())?;
    for number in 0..table.len() {
        add_text(&mut all, &mut places, text_in(table, number))?;
    }
    Ok((all, places))
}

/// The text of a symbol number that a table has.
fn text_in<'a>(table: &SymbolTable<'a>, number: usize) -> &'a str
    requires { number < length table.now }
    ensures { slice_get table.now number ≡ Some result.now }
{
    table.get(number).unwrap()
}

/// Puts a text behind the others.
fn add_text(all: &mut String, places: &mut Vec<Span>, text: &str) -> Result<(), NoMemory>
    requires { AreTextsAt (string_bytes all.old) places.old.items }
    ensures texts { OnOk result (AreTextsAt (string_bytes all.new) places.new.items) }
    ensures value { OnOk result (texts_at (string_bytes all.new) places.new.items
        ≡ texts_at (string_bytes all.old) places.old.items ++ text.now ∷ []) }
{
    let start = all.len();
    all.push_str(text)?;
    places.push(Span {
        start,
        end: all.len(),
    })?;
    Ok(())
}

/// The text at one of these places.
fn text_of<'a>(all: &'a str, places: &[Span], number: u64) -> Option<&'a str>
    requires { AreTextsAt all.now places.now }
    ensures { option_copied result ≡ slice_get (texts_at all.now places.now) number }
{
    match places.get(number as usize) {
        Some(place) => Some(text_at(all, *place)),
        None => None,
    }
}

fn text_at(all: &str, place: Span) -> &str
    requires { IsTextAt all.now place }
    ensures { result.now ≡ text_at all.now place }
{
    &all[place.start..place.end]
}

//! The symbols of an opened index. An index without series may lack the section of them: then there are none, and a
//! number that names one is refused where it stands.

ghost use Rattle.std.specs.Prelude.{◌≡◌, ◌+◌, ◌^◌, ◌<◌, ◌≤◌, length, slice_get, IfOk};
ghost use Rattle.std.specs.Option.{option_copied};
ghost use Rattle.base.specs.Reading.{Gives};
ghost use Rattle.index_parts.specs.Symbols.{IsSymbols};
ghost use Rattle.index_parts.specs.SymbolsReading.{symbols_at};
ghost use Rattle.index_parts.specs.IndexFile.{Holds};
ghost use Rattle.index_parts.specs.Parts.{part_of, known, IsPartOf};
ghost use Rattle.index_v2.specs.Opening.{held_at, symbols_section};
ghost use Rattle.index_v2.specs.Ranks.{AreSymbols};

use crate::IndexRefusal;
use crate::opening::refused_in;
use index_parts::{IndexPart, SymbolTable, symbols_in};
use std::alloc::Global;
use std::marker::Model;

/// The number of the section of symbols.
pub(crate) const SYMBOLS: u8 = 1;

/// The symbols of an index, which has none where their section is absent.
#[derive(Drop)]
pub(crate) struct Symbols<'a> {
    table: Option<SymbolTable<'a>>,
}

impl<'a> Model for Symbols<'a> {
    ghost use Rattle.std.specs.Prelude.{List, [], ℕ, unwrap_or};
    ghost use Rattle.index_v2.specs.Ranks.{AreSymbols};

    ghost Value = { List (List ℕ) };

    ghost view = { λ s. unwrap_or s.table [] };

    ghost invariant = { λ s. AreSymbols (unwrap_or s.table []) };
}

impl<'a> Symbols<'a> {
    ghost use Rattle.std.specs.Prelude.{List, ℕ};

    /// How many there are.
    #[inline(always)]
    pub(crate) fn len(&self) -> usize
        ensures value { result ≡ length self.now }
        ensures are { AreSymbols self.now }
    {
        match &self.table {
            None => 0,
            Some(table) => table.len(),
        }
    }

    /// The text of a symbol number.
    #[inline(always)]
    pub(crate) fn get(&self, number: u64) -> Option<&'a str>
        ensures value { option_copied result ≡ slice_get self.now number }
        ensures are { AreSymbols self.now }
    {
        match &self.table {
            None => None,
            Some(table) => table.get(number as usize),
        }
    }

    /// Reads the symbols at a reference.
    pub(crate) fn read(
        alloc: Global,
        part: IndexPart<'a>,
        reference: u64,
    ) -> Result<Symbols<'a>, IndexRefusal>
        requires begins { part.begin ≤ reference }
        requires fits { part.begin + length part.bytes.now < 2 ^ 64 }
        ensures found { (index : List ℕ) → IsPartOf (part_of part.entry) index
            → IfOk result (λ symbols. Holds IsSymbols index reference symbols) }
        ensures exact { Gives IndexRefusal.NoMemory (λ symbols. symbols) result
            (held_at symbols_section symbols_at (known (part_of part.entry)) reference) }
        ensures few { IfOk result (λ symbols. length symbols ≤ length part.entry.bytes.now) }
    {
        if reference == 0 {
            return Ok(Symbols { table: None });
        }
        match symbols_in(alloc, part, reference) {
            Ok(table) => Ok(Symbols { table: Some(table) }),
            Err(refusal) => Err(refused_in(SYMBOLS, refusal)),
        }
    }
}

//! The texts of all labels of an index, each once and in order; series name them by number. They are lent from the
//! index's bytes and never copied.

ghost use Rattle.std.specs.Prelude.{◌≡◌, ◌⊎◌, ◌≤◌, List, ℕ, length, map, slice_get, IfOk, Ok, Err, Some, MatchResult};
ghost use Rattle.std.specs.Result.{IsOkAnd};
ghost use Rattle.std.specs.Option.{option_copied};
ghost use Rattle.base.specs.Order.{comes_after};
ghost use Rattle.base.specs.Reading.{Gives};
ghost use Rattle.base.specs.Grammar.{IsBytes};
ghost use Rattle.label_sets.specs.Labels.{compare_texts};
ghost use Rattle.index_parts.specs.Symbols.{IsSymbols};
ghost use Rattle.index_parts.specs.SymbolsReading.{symbols_at};

use crate::PartRefusal;
use crate::fields::{next_text, text_of};
use crate::list_reading::{Member, list_of};
use label_sets::Text;
use std::alloc::Global;
use std::marker::Model;
use wire_bytes::Cursor;

/// How many bytes a symbol takes, as a guess at how many there are.
const USUAL_SIZE: usize = 8;

/// The symbols of an index, which lend the index's bytes.
#[derive(Drop)]
pub struct SymbolTable<'a> {
    symbols: Vec<&'a str>,
}

impl<'a> Model for SymbolTable<'a> {
    ghost Value = { List (List ℕ) };

    ghost view = { λ t. map (λ s. s.now) t.symbols.items };
}

impl<'a> SymbolTable<'a> {
    /// How many symbols there are.
    pub fn len(&self) -> usize
        ensures { result ≡ length self.now }
    {
        self.symbols.len()
    }

    /// The symbol of a number.
    pub fn get(&self, place: usize) -> Option<&'a str>
        ensures { option_copied result ≡ slice_get self.now place }
    {
        self.symbols.get(place).copied()
    }
}

/// Whether a symbol may stand behind another.
#[inline(always)]
fn may_follow(before: Option<&str>, symbol: &str) -> bool
    ensures { result ≡ comes_after compare_texts (option_copied before.entry) symbol.now }
{
    match before {
        None => true,
        Some(before) => before < symbol,
    }
}

/// Whether bytes that are no text may stand behind a symbol.
fn may_bytes_follow(before: Option<&str>, symbol: &[u8]) -> bool
    ensures { result ≡ comes_after compare_texts (option_copied before.entry) symbol.now }
{
    match before {
        None => true,
        Some(before) => before.as_bytes().cmp(symbol).is_lt(),
    }
}

impl<'a> Member<'a> for &'a str {
    ghost use Rattle.std.specs.Prelude.{option_map};
    ghost use Rattle.index_parts.specs.SymbolsReading.{symbol_at};
    ghost use Rattle.index_parts.specs.Moves.{MovesOnTo};

    type Owned = Text;

    ghost said = { λ s. s.now };

    ghost reads = { symbol_at };

    /// The next symbol. Its order is tested before its text.
    #[inline(always)]
    #[tactic(auto, unfolding(crate::specs::SymbolsReading::symbol_at))]
    fn next(cursor: &mut Cursor<'a>, before: Option<&'a str>) -> Result<&'a str, PartRefusal>
        ensures { MovesOnTo (λ s. s.now) cursor.new result
            (symbol_at (option_map (λ s. s.now) before.entry, cursor.old)) }
    {
        let place = cursor.place() as u64;
        let bytes = next_text(cursor)?;
        match text_of(bytes, cursor.place()) {
            Ok(symbol) if may_follow(before, symbol) => Ok(symbol),
            Err(refusal) if may_bytes_follow(before, bytes) => Err(refusal),
            _ => Err(PartRefusal::Unordered(place)),
        }
    }
}

fn table_of<'a>(alloc: Global, index: &'a [u8], at: u64) -> Result<SymbolTable<'a>, PartRefusal>
    ensures exact { Gives PartRefusal.NoMemory (λ table. table) result (symbols_at index.now at) }
    ensures bytes { IsBytes index.now }
{
    let symbols = list_of(alloc, index, at, USUAL_SIZE)?;
    Ok(SymbolTable { symbols })
}

/// Reads the symbol table at a place. Bytes that follow the last symbol are passed over.
pub fn read_symbols<'a>(
    alloc: Global,
    index: &'a [u8],
    at: u64,
) -> Result<SymbolTable<'a>, PartRefusal>
    // What is read is what stands there, and what stands there is read.
    ensures found { IfOk result (λ table. IsSymbols index.now at table) }
    ensures only { (symbols : List (List ℕ)) → IsSymbols index.now at symbols
        → IsOkAnd result (λ table. table ≡ symbols) ⊎ (result ≡ Err PartRefusal.NoMemory) }

    // The first refusal.
    ensures exact { Gives PartRefusal.NoMemory (λ table. table) result (symbols_at index.now at) }
    ensures few { IfOk result (λ table. length table ≤ length index.now) }
{
    table_of(alloc, index, at)
}

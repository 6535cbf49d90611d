//! What all sections behind the series are made of. A series' number is its place in the file, so the front of the
//! index is written before the postings can be listed.

ghost use Rattle.std.specs.Prelude.{◌≡◌, ◌++◌, [], map, length, IfOk, OnOk, List, ℕ};
ghost use Rattle.std.specs.List.{AllByRecursion};
ghost use Rattle.base.specs.Order.{ComesAfter};
ghost use Rattle.index_parts.specs.IndexFile.{header};
ghost use Rattle.label_sets.specs.Labels.{IsLabelSet, compare_texts};
ghost use Rattle.index_parts.specs.Turns.{InOrder};
ghost use Rattle.index_parts.specs.Symbols.{IsSymbols};
ghost use Rattle.index_writing.specs.SymbolsInUse.{symbols_of};
ghost use Rattle.index_writing.specs.WriteSteps.{greatest, Makes, EachStands};
ghost use Rattle.index_writing.specs.Written.{AreWritable, up_to_symbols, with_series, parts_of};

use crate::IndexWriteRefusal;
use crate::label_groups::{LabelRow, NameValues, names_of, rows_of};
use crate::section_places::put_all_series;
use crate::section_tables::put_symbols;
use crate::symbols_in_use::{raws_of, symbols_of};
use base::{List, NoMemory};
use index_parts::{IndexSeries, MAGIC, RawSeries, VERSION};
use label_sets::TextList;
use wire_bytes::{NumberList, put_bytes, put_u8};

/// What an index is made of.
#[derive(Drop)]
pub(crate) struct Parts {
    pub symbols: TextList,
    /// The place behind the symbols.
    pub symbols_end: u64,
    pub series: List<RawSeries>,
    pub numbers: NumberList,
    pub rows: List<LabelRow>,
    pub names: List<NameValues>,
}

/// Appends what an index begins with.
fn put_header(out: &mut Vec<u8>) -> Result<(), NoMemory>
    ensures { OnOk result (out.new.items ≡ out.old.items ++ header) }
{
    put_bytes(out, &MAGIC)?;
    put_u8(out, VERSION)
}

/// Writes an index up to the end of its symbols.
#[tactic(auto, unfolding(crate::specs::Written::up_to_symbols))]
fn put_front(out: &mut Vec<u8>, symbols: &TextList) -> Result<u64, IndexWriteRefusal>
    requires { out.old.items ≡ [] }
    ensures makes { Makes result out.new.items (up_to_symbols symbols.now) }
    ensures end { IfOk result (λ end. end ≡ length (up_to_symbols symbols.now)) }
    ensures stands { InOrder (ComesAfter compare_texts) symbols.now → (after : List ℕ)
        → OnOk result (IsSymbols (out.new.items ++ after) 5 symbols.now) }
{
    put_header(out)?;
    put_symbols(out, symbols)?;
    Ok(out.len() as u64)
}

/// Writes an index up to the end of its series, and gives what the other sections are made of.
#[tactic(auto, unfolding(crate::specs::Written::parts_of, crate::specs::Written::with_series))]
pub(crate) fn put_parts(out: &mut Vec<u8>, list: &[IndexSeries]) -> Result<Parts, IndexWriteRefusal>
    requires empty { out.old.items ≡ [] }
    requires lawful { AreWritable list.now }
    ensures makes { Makes result out.new.items (with_series (parts_of list.now)) }
    ensures parts { IfOk result (λ parts. parts ≡ parts_of list.now) }
    ensures symbols { (after : List ℕ)
        → OnOk result (IsSymbols (out.new.items ++ after) 5 (symbols_of list.now)) }
    ensures series { IfOk result (λ parts. EachStands out.new.items parts.numbers parts.series) }
    ensures labels { OnOk result (AllByRecursion (λ one. IsLabelSet one.labels) list.now) }
{
    let alloc = *out.allocator();
    let symbols = symbols_of(alloc, list)?;
    let series = raws_of(alloc, symbols.members(), list)?;
    let symbols_end = put_front(out, &symbols)?;
    let numbers = put_all_series(out, series.as_slice())?;
    let rows = rows_of(alloc, series.as_slice(), numbers.members())?;
    let names = names_of(alloc, rows.as_slice())?;
    Ok(Parts {
        symbols,
        symbols_end,
        series: List::from_vec(series),
        numbers,
        rows: List::from_vec(rows),
        names: List::from_vec(names),
    })
}

//! The tables of an index, whose rows repeat texts. So how long a table becomes at least is counted while its rows are
//! made, and one that no index has room for is refused before it is built.

ghost use Rattle.std.specs.Prelude.{◌≡◌, ◌++◌, ◌∷◌, [], ◌+◌, ◌*◌, ◌<◌, ◌≤◌, ◌^◌, map, zip, length, IfOk, OnOk, OnErr, IfErr, MatchBool, List, ℕ, MatchResult};
ghost use Rattle.std.specs.List.{sum_by};
ghost use Rattle.base.specs.Order.{ComesAfter};
ghost use Rattle.label_sets.specs.Labels.{compare_texts};
ghost use Rattle.index_parts.specs.Turns.{InOrder};
ghost use Rattle.index_parts.specs.Contents.{IsToc, toc_text};
ghost use Rattle.index_parts.specs.Framed.{text_field};
ghost use Rattle.index_parts.specs.Lists.{list_content};
ghost use Rattle.index_parts.specs.LabelIndices.{IsLabelOffsets, label_offsets_text};
ghost use Rattle.index_parts.specs.Rows.{MayComeAfter, IsPostingsTable, postings_table_text, row_text};
ghost use Rattle.index_parts.specs.Symbols.{IsSymbols, symbols_text};
ghost use Rattle.index_writing.specs.WriteSteps.{greatest, Makes, Measures, text_size, row_size};
ghost use Rattle.index_writing.specs.SymbolsInUse.{symbol_of};
ghost use Rattle.index_writing.specs.Written.{name_texts, label_rows, table_rows};

use crate::label_groups::{LabelRow, NameValues};
use crate::section_places::{GREATEST, test_size};
use crate::symbols_in_use::symbol_of;
use crate::{
    IndexWriteRefusal, write_label_offsets, write_postings_table, write_symbols, write_toc,
};
use base::NoMemory;
use index_parts::{PostingsRow, PostingsRowList, Toc};
use label_sets::{Text, TextList};
use std::alloc::Global;
use wire_bytes::NumberList;

/// A size with more, unless it passes the greatest length.
fn size_with(size: usize, by: usize) -> Result<usize, IndexWriteRefusal>
    requires { size ≤ greatest }
    ensures { Measures result (size + by) }
{
    if by > GREATEST - size {
        return Err(IndexWriteRefusal::TooLarge);
    }
    Ok(size + by)
}

/// The least number of bytes of texts behind their lengths, unless it passes the greatest length.
fn size_of_texts(texts: &[Text]) -> Result<usize, IndexWriteRefusal>
    ensures { Measures result (sum_by text_size texts.now) }
{
    let mut size = 0;
    for text in texts {
        size = size_with(size_with(size, 1)?, text.as_str().len())?;
    }
    Ok(size)
}

/// Appends the symbols.
pub(crate) fn put_symbols(out: &mut Vec<u8>, symbols: &TextList) -> Result<(), IndexWriteRefusal>
    ensures makes { Makes result out.new.items (out.old.items ++ symbols_text symbols.now) }
    ensures stands { InOrder (ComesAfter compare_texts) symbols.now → (after : List ℕ)
        → OnOk result (IsSymbols (out.new.items ++ after) (length out.old.items) symbols.now) }
{
    size_of_texts(symbols.members())?;
    write_symbols(out, symbols)?;
    test_size(out)
}

fn name_texts(alloc: Global, symbols: &[Text], names: &[NameValues]) -> Result<TextList, NoMemory>
    ensures { IfOk result (λ texts. texts ≡ name_texts symbols.now names.now) }
{
    let mut texts = TextList::new(alloc);
    for name in names {
        texts.push(Text::from_str(alloc, symbol_of(symbols, name.name))?)?;
    }
    Ok(texts)
}

/// Appends the table of label indices.
pub(crate) fn put_label_offsets(
    out: &mut Vec<u8>,
    symbols: &[Text],
    names: &[NameValues],
    places: &NumberList,
) -> Result<(), IndexWriteRefusal>
    requires { length names.now ≡ length places.now }
    ensures makes { Makes result out.new.items
        (out.old.items ++ label_offsets_text (zip (name_texts symbols.now names.now) places.now)) }
    ensures stands { (after : List ℕ)
        → OnOk result
        (IsLabelOffsets (out.new.items ++ after) (length out.old.items)
        (zip (name_texts symbols.now names.now) places.now)) }
{
    let texts = name_texts(*out.allocator(), symbols, names)?;
    size_of_texts(texts.members())?;
    write_label_offsets(out, &texts, places)?;
    test_size(out)
}

fn label_row(
    alloc: Global,
    symbols: &[Text],
    row: &LabelRow,
    place: u64,
) -> Result<PostingsRow, NoMemory>
    ensures { IfOk result
        (λ made. made
        ≡ record {
          name = symbol_of symbols.now row.now.name;
          value = symbol_of symbols.now row.now.value;
          offset = place;
        }) }
{
    Ok(PostingsRow {
        name: Text::from_str(alloc, symbol_of(symbols, row.name))?,
        value: Text::from_str(alloc, symbol_of(symbols, row.value))?,
        offset: place,
    })
}

/// The row of all series.
fn row_of_all(alloc: Global, place: u64) -> Result<PostingsRow, NoMemory>
    ensures { IfOk result (λ made. made ≡ record { name = []; value = []; offset = place }) }
{
    Ok(PostingsRow {
        name: Text::from_str(alloc, "")?,
        value: Text::from_str(alloc, "")?,
        offset: place,
    })
}

/// A size with the least number of bytes of a row.
fn size_with_row(size: usize, row: &PostingsRow) -> Result<usize, IndexWriteRefusal>
    requires { size ≤ greatest }
    ensures { Measures result (size + row_size row.now) }
{
    let size = size_with(size, 4)?;
    let size = size_with(size, row.name.as_str().len())?;
    size_with(size, row.value.as_str().len())
}

/// The rows of a postings table, as long as they are not too long for an index.
fn table_rows(
    alloc: Global,
    symbols: &[Text],
    rows: &[LabelRow],
    places: &[u64],
) -> Result<PostingsRowList, IndexWriteRefusal>
    requires { length places.now ≡ length rows.now + 1 }
    ensures rows { IfOk result (λ table. table ≡ table_rows symbols.now rows.now places.now) }
    ensures fit { OnOk result
        (sum_by row_size (table_rows symbols.now rows.now places.now) ≤ greatest) }
    ensures large { IfErr result
        (λ e. e ≡ IndexWriteRefusal.TooLarge
        → greatest < sum_by row_size (table_rows symbols.now rows.now places.now)) }
{
    let mut table = PostingsRowList::new(alloc);
    table.push(row_of_all(alloc, places[0])?)?;
    let mut size = 4;
    for (place, row) in rows.iter().enumerate() {
        let made = label_row(alloc, symbols, row, places[place + 1])?;
        size = size_with_row(size, &made)?;
        table.push(made)?;
    }
    Ok(table)
}

/// Appends the postings table.
pub(crate) fn put_table(
    out: &mut Vec<u8>,
    symbols: &[Text],
    rows: &[LabelRow],
    places: &[u64],
) -> Result<(), IndexWriteRefusal>
    requires { length places.now ≡ length rows.now + 1 }
    ensures makes { Makes result out.new.items
        (out.old.items ++ postings_table_text (table_rows symbols.now rows.now places.now)) }
    ensures stands { InOrder MayComeAfter (table_rows symbols.now rows.now places.now)
        → (after : List ℕ)
        → OnOk result
        (IsPostingsTable (out.new.items ++ after) (length out.old.items)
        (table_rows symbols.now rows.now places.now)) }
{
    let table = table_rows(*out.allocator(), symbols, rows, places)?;
    write_postings_table(out, &table)?;
    test_size(out)
}

/// Appends the table of contents, with which an index ends.
pub(crate) fn put_toc(out: &mut Vec<u8>, toc: &Toc) -> Result<(), IndexWriteRefusal>
    ensures makes { Makes result out.new.items (out.old.items ++ toc_text toc.now) }
    ensures stands { OnOk result (IsToc out.new.items toc.now) }
{
    write_toc(out, toc)?;
    test_size(out)
}

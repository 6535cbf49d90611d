//! The symbols of an index: the texts that its labels use, each once. They are sorted where the series have them, and
//! only those that differ are copied, since many series share few texts.

ghost use Rattle.std.specs.Prelude.{◌≡◌, ◌++◌, ◌∷◌, [], map, List, ℕ, IfOk, OnOk, All};
ghost use Rattle.std.specs.List.{dedup, AllByRecursion};
ghost use Rattle.std.specs.Str.{bytes_eq, IsUtf8};
ghost use Rattle.std.specs.List.Sorted.{IsStrictlySortedBy};
ghost use Rattle.label_sets.specs.Labels.{compare_texts, IsLabelSet, is_lesser_text};
ghost use Rattle.label_sets.specs.Ordered.{in_order};
ghost use Rattle.index_parts.specs.declared.raw_series.RawSeries.{RawSeries};
ghost use Rattle.index_writing.specs.SymbolsInUse.{texts_of_labels, texts_of, symbols_of, number_of, symbol_of, raw_of};

use crate::lent_text::LentText;
use base::{List, NoMemory, TryCopy};
use index_parts::{IndexSeries, RawSeries};
use label_sets::{Label, Text, TextList};
use std::alloc::Global;
use wire_bytes::NumberList;

/// Adds the names and values of labels, which lend them.
fn add_texts<'a>(texts: &mut Vec<LentText<'a>>, labels: &'a [Label]) -> Result<(), NoMemory>
    ensures { OnOk result (texts.new.items ≡ texts.old.items ++ texts_of_labels labels.now) }
{
    for label in labels {
        texts.push(LentText::of(&label.name))?;
        texts.push(LentText::of(&label.value))?;
    }
    Ok(())
}

/// How many texts the labels of series have.
fn text_count(series: &[IndexSeries]) -> usize {
    let mut labels = 0usize;
    for one in series {
        labels = labels.saturating_add(one.labels.labels().len());
    }
    labels.saturating_mul(2)
}

/// The names and values of all labels, which the series lend.
#[tactic(auto, unfolding(crate::specs::SymbolsInUse::texts_of))]
fn texts_of(alloc: Global, series: &[IndexSeries]) -> Result<Vec<LentText<'_>>, NoMemory>
    ensures texts { IfOk result (λ texts. texts.items ≡ texts_of series.now) }
    ensures lawful { OnOk result (AllByRecursion (λ one. IsLabelSet one.labels) series.now) }
{
    let mut texts = Vec::with_capacity(alloc, text_count(series))?;
    for one in series {
        add_texts(&mut texts, one.labels.labels())?;
    }
    Ok(texts)
}

fn sort_texts(texts: &mut Vec<LentText<'_>>) -> Result<(), NoMemory>
    ensures { OnOk result (texts.new.items ≡ in_order is_lesser_text texts.old.items) }
{
    texts.sort()?;
    Ok(())
}

fn drop_repeats(texts: &mut Vec<LentText<'_>>)
    ensures { texts.new.items ≡ dedup bytes_eq texts.old.items }
{
    texts.dedup();
}

/// Copies of texts, in memory for just so many.
fn copies_of(alloc: Global, texts: &[LentText<'_>]) -> Result<TextList, NoMemory>
    ensures { IfOk result (λ copies. copies ≡ texts.now) }
{
    let mut copies = Vec::with_capacity(alloc, texts.len())?;
    for text in texts {
        copies.push(Text::from_str(alloc, text.as_str())?)?;
    }
    Ok(List::from_vec(copies))
}

/// The symbols of series: the texts that are in use, ascending. Only those that differ are copied.
#[tactic(auto, unfolding(crate::specs::SymbolsInUse::symbols_of))]
pub(crate) fn symbols_of(alloc: Global, series: &[IndexSeries]) -> Result<TextList, NoMemory>
    ensures symbols { IfOk result (λ symbols. symbols ≡ symbols_of series.now) }
    ensures lawful { OnOk result (AllByRecursion (λ one. IsLabelSet one.labels) series.now) }
{
    let mut texts = texts_of(alloc, series)?;
    sort_texts(&mut texts)?;
    drop_repeats(&mut texts);
    copies_of(alloc, texts.as_slice())
}

/// The number of a symbol: how many stand before it.
fn number_of(symbols: &[Text], text: &Text) -> u64
    requires { IsStrictlySortedBy compare_texts symbols.now }
    ensures { result ≡ number_of symbols.now text.now }
{
    symbols.partition_point(|symbol| symbol < text) as u64
}

/// The text of a symbol's number.
#[tactic(auto, unfolding(crate::specs::SymbolsInUse::symbol_of))]
pub(crate) fn symbol_of(symbols: &[Text], number: u64) -> &str
    ensures { result.now ≡ symbol_of symbols.now number }
{
    match symbols.get(number as usize) {
        None => "",
        Some(text) => text.as_str(),
    }
}

/// The symbol numbers of the labels' names, or of their values.
fn numbers_of(
    alloc: Global,
    symbols: &[Text],
    labels: &[Label],
) -> Result<(NumberList, NumberList), NoMemory>
    requires { IsStrictlySortedBy compare_texts symbols.now }
    ensures { IfOk result
        (λ numbers. (numbers.0 ≡ map (λ l. number_of symbols.now l.name) labels.now)
        × (numbers.1 ≡ map (λ l. number_of symbols.now l.value) labels.now)) }
{
    let mut names = Vec::with_capacity(alloc, labels.len())?;
    let mut values = Vec::with_capacity(alloc, labels.len())?;
    for label in labels {
        names.push(number_of(symbols, &label.name))?;
        values.push(number_of(symbols, &label.value))?;
    }
    Ok((NumberList::from_vec(names), NumberList::from_vec(values)))
}

/// A series with its names and values as symbol numbers.
#[tactic(auto, unfolding(crate::specs::SymbolsInUse::raw_of))]
fn raw_of(alloc: Global, symbols: &[Text], series: &IndexSeries) -> Result<RawSeries, NoMemory>
    requires { IsStrictlySortedBy compare_texts symbols.now }
    ensures { IfOk result (λ raw. raw ≡ raw_of symbols.now series.now) }
{
    let (names, values) = numbers_of(alloc, symbols, series.labels.labels())?;
    Ok(RawSeries {
        names,
        values,
        chunks: series.chunks.copy()?,
    })
}

/// Each of these series with its names and values as symbol numbers.
pub(crate) fn raws_of(
    alloc: Global,
    symbols: &[Text],
    series: &[IndexSeries],
) -> Result<Vec<RawSeries>, NoMemory>
    requires { IsStrictlySortedBy compare_texts symbols.now }
    ensures { IfOk result (λ raws. raws.items ≡ map (raw_of symbols.now) series.now) }
{
    let mut raws = Vec::with_capacity(alloc, series.len())?;
    for one in series {
        raws.push(raw_of(alloc, symbols, one)?)?;
    }
    Ok(raws)
}

//! The labels of a series, by its symbol numbers.
ghost use Rattle.std.specs.Prelude.{◌≡◌, [], length, option_map, IfOk};
ghost use Rattle.std.specs.Result.{result_ok};
ghost use Rattle.index_v2.specs.SeriesLabels.{label_of, labels_of, unplaced, all_unplaced};

use crate::symbol_texts::SymbolTexts;
use base::NoMemory;
use index_parts::RawSeries;
use index_v2::{IndexSeries, add_label};
use label_sets::LabelSet;
use std::alloc::Global;

/// The texts of a label's symbol numbers: the name is above the one before it, and the value is not
/// empty. None where one of them is refused.
#[tactic(auto, unfolding(index_v2::specs::SeriesLabels::label_of))]
fn label_of<'a>(
    symbols: &'a SymbolTexts,
    before: &str,
    name: u64,
    value: u64,
) -> Option<(&'a str, &'a str)>
    ensures { option_map (λ texts. record { name = texts.0.now; value = texts.1.now }) result
        ≡ result_ok (label_of symbols.now before.now (unplaced name value)) }
{
    let name = match symbols.get(name) {
        Some(name) if before < name => name,
        _ => return None,
    };
    match symbols.get(value) {
        Some(value) if !value.is_empty() => Some((name, value)),
        _ => None,
    }
}

/// The labels of these symbol numbers. None where one of the numbers is refused.
fn labels_of(
    alloc: Global,
    symbols: &SymbolTexts,
    names: &[u64],
    values: &[u64],
) -> Result<Option<LabelSet>, NoMemory>
    requires { length names.now ≡ length values.now }
    ensures { IfOk result
        (λ found. found
        ≡ result_ok (labels_of symbols.now [] (all_unplaced names.now values.now))) }
{
    let mut set = LabelSet::empty(alloc);
    let mut before = "";
    for place in 0..names.len() {
        match label_of(symbols, before, names[place], values[place]) {
            Some((name, value)) => {
                add_label(&mut set, name, value)?;
                before = name;
            }
            None => return Ok(None),
        }
    }
    Ok(Some(set))
}

/// A series with the texts of its symbol numbers. None where one of the numbers is refused.
pub fn named_series(
    alloc: Global,
    symbols: &SymbolTexts,
    raw: RawSeries,
) -> Result<Option<IndexSeries>, NoMemory>
    requires { length raw.names ≡ length raw.values }
    ensures { IfOk result (λ found. found
        ≡ option_map (λ labels. record { labels = labels; chunks = raw.chunks })
        (result_ok (labels_of symbols.now [] (all_unplaced raw.names raw.values)))) }
{
    let RawSeries {
        names,
        values,
        chunks,
    } = raw;
    match labels_of(alloc, symbols, names.members(), values.members())? {
        Some(labels) => Ok(Some(IndexSeries { labels, chunks })),
        None => Ok(None),
    }
}

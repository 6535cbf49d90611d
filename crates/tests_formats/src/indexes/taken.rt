use crate::labels::set_of;
use crate::says::{cut, put, put_labels, say, show};
use index_v2::IndexReader;
use label_sets::{LabelSet, TextList, final_labels};
use matchers::Selector;
use series_selection::select_postings;

/// Prints how many series a selector takes from an index of a block with these external labels, and the final labels of those
/// that stand in the bytes: `EXTERNAL SELECTOR`.
pub(crate) fn print_taken(rt: &HostRuntime, index: &[u8], reader: &IndexReader<'_>, asked: &str) {
    let alloc = rt.alloc();
    let (external, selector) = cut(asked);
    let external = set_of(alloc, external);
    match Selector::read(alloc, selector, &TextList::new(alloc)) {
        Ok(selector) => {
            let taken = select_postings(alloc, reader, &selector, &external);
            drop(selector);
            match taken {
                Ok(numbers) => print_found(rt, index, reader, numbers.members(), &external),
                Err(refusal) => show(rt, &refusal),
            }
        }
        Err(refusal) => show(rt, &refusal),
    }
}

/// Prints the final labels of series, which are read in the index's bytes, each behind a blank.
fn print_found(
    rt: &HostRuntime,
    index: &[u8],
    reader: &IndexReader<'_>,
    numbers: &[u64],
    external: &LabelSet,
) {
    let _ = print!(rt; "{}:", numbers.len());
    for number in numbers {
        let number = u32::try_from(*number).unwrap_or(u32::MAX);
        if let Ok(series) = reader.series_in(rt.alloc(), index, 0, number) {
            put(rt, " ");
            put_final(rt, &series.labels, external);
        }
    }
    say(rt, "");
}

/// Prints the labels under which a series is seen, with no line's end behind them.
pub(crate) fn put_final(rt: &HostRuntime, own: &LabelSet, external: &LabelSet) {
    let alloc = rt.alloc();
    match final_labels(alloc, own, external, &TextList::new(alloc)) {
        Ok(labels) => put_labels(rt, &labels),
        Err(_) => put(rt, "no memory"),
    }
}

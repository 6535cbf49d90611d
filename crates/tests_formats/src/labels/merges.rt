use crate::labels::series::series_of;
use crate::says::{say, say_text};
use label_sets::Series;
use vertical_merge::Merger;

/// Prints the merge of series: those with samples are added, and the others taken.
pub(crate) fn print_merged(rt: &HostRuntime, text: &str) {
    let mut merger = Merger::new(rt.alloc());
    for part in text.split('|') {
        add_series(&mut merger, series_of(rt.alloc(), part));
    }
    match merger.finish() {
        Ok(list) => {
            let mut out = Vec::new(rt.alloc());
            for series in list.members() {
                let _ = series.write(&mut out);
                let _ = out.push(b';');
            }
            say_text(rt, out.as_slice());
        }
        Err(_) => say(rt, "no memory"),
    }
}

fn add_series(merger: &mut Merger, series: Series) {
    if series.samples.is_empty() {
        let _ = merger.take(series);
    } else {
        let _ = merger.add(&series.labels, &series.samples);
        drop(series);
    }
}

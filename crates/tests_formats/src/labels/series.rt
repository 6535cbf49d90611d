use crate::labels::sets::set_of;
use crate::says::{copied, cut, say_text};
use label_sets::{Sample, SampleList, Series};
use std::alloc::Global;

/// Prints a series as its copy is written.
pub(crate) fn print_series(rt: &HostRuntime, text: &str) {
    let mut out = Vec::new(rt.alloc());
    if let Some(copy) = copied(series_of(rt.alloc(), text)) {
        let _ = copy.write(&mut out);
        drop(copy);
    }
    say_text(rt, out.as_slice());
}

/// The series of a text: a label set, and samples after spaces.
pub(crate) fn series_of(alloc: Global, text: &str) -> Series {
    let (set, samples) = cut(text);
    Series {
        labels: set_of(alloc, set),
        samples: samples_of(alloc, samples),
    }
}

/// Prints samples, each as in a script behind a blank, with no line's end behind them.
pub(crate) fn put_samples(rt: &HostRuntime, samples: &[Sample]) {
    for sample in samples {
        let _ = print!(rt; " {}:{:016x}", sample.time, sample.pattern);
    }
}

/// The samples of a text, each as in a script.
pub(crate) fn samples_of(alloc: Global, text: &str) -> SampleList {
    let mut samples = SampleList::new(alloc);
    for word in text.split(' ') {
        if let Ok(sample) = Sample::read(word) {
            let _ = samples.push(sample);
        }
    }
    samples
}

//! Series in words, with `; ` between two. A series is a label set, and behind it its samples: `TIME:PATTERN` is one, and
//! `TIME+STEP*COUNT:PATTERN` so many, one STEP after another.
use label_sets::{LabelSet, Sample, SampleList, Series, SeriesList};
use std::alloc::Global;

/// The series of a text. What is none is left out.
pub(crate) fn read_list(alloc: Global, text: &str) -> SeriesList {
    let mut list = SeriesList::new(alloc);
    for one in text.split("; ") {
        if let Ok((labels, count)) = LabelSet::read(alloc, one) {
            let samples = read_samples(alloc, &one[count..]);
            let _ = list.push(Series { labels, samples });
        }
    }
    list
}

/// The samples of a text.
pub(crate) fn read_samples(alloc: Global, text: &str) -> SampleList {
    let mut samples = SampleList::new(alloc);
    for word in text.split(' ') {
        if let Some((times, pattern)) = word.split_once(':') {
            add_times(&mut samples, times, pattern.parse().unwrap_or(0));
        }
    }
    samples
}

fn add_times(samples: &mut SampleList, times: &str, pattern: u64) {
    let (start, run) = times.split_once('+').unwrap_or((times, "0*1"));
    let (step, count) = run.split_once('*').unwrap_or((run, "1"));
    let step: i64 = step.parse().unwrap_or(0);
    let mut time: i64 = start.parse().unwrap_or(0);
    for _ in 0..count.parse::<u16>().unwrap_or(0) {
        let _ = samples.push(Sample { time, pattern });
        time = time.saturating_add(step);
    }
}

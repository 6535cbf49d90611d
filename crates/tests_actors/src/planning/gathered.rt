//! Rows of answers that are gathered. Labels, times and patterns are single numbers or letters, since all that matters
//! is which gateway's sample stays and which sources are named.

use crate::says::{cut_at, put, put_number, say};
use label_sets::{LabelSet, Sample, SampleList, Series, SeriesList};
use querier::{Answer, Gather, InTurn};
use std::alloc::Global;
use ulid_core::{Ulid, UlidList};

/// Prints what is gathered. The row is the answers of gateways, in their order.
pub(crate) fn print_gathered(rt: &HostRuntime, text: &str) {
    let mut gather = Gather::new(rt.alloc());
    for word in text.split_ascii_whitespace() {
        add_answer(rt.alloc(), &mut gather, word);
    }
    match gather.finish(&InTurn) {
        Ok(answer) => {
            print_answer(rt, &answer);
            drop(answer);
        }
        Err(_) => say(rt, " no memory"),
    }
}

fn print_answer(rt: &HostRuntime, answer: &Answer) {
    for source in answer.sources.members() {
        put_number(rt, *source);
    }
    put(rt, ";");
    for series in answer.series.members() {
        put(rt, " ");
        put(rt, series.labels.value("a").unwrap_or(""));
        for sample in series.samples.members() {
            let _ = print!(rt; ":{},{}", sample.time, sample.pattern);
        }
    }
    say(rt, "");
}

/// Adds an answer, which is SOURCE,SOURCE;VALUE:TIME,PATTERN;VALUE:TIME,PATTERN
fn add_answer(alloc: Global, gather: &mut Gather, word: &str) {
    let (sources, samples) = word.split_once(';').unwrap_or((word, ""));
    let mut series = SeriesList::new(alloc);
    for sample in samples.split(';') {
        add_series(alloc, &mut series, sample);
    }
    let mut ulids = UlidList::new(alloc);
    for source in sources.split(',') {
        let _ = ulids.push(Ulid::from_parts(0, u128::from(source.parse::<u32>().unwrap_or(0))));
    }
    let _ = gather.add(&series, &ulids);
    drop(ulids);
    drop(series);
}

/// Adds a series of one sample, if the text is one.
fn add_series(alloc: Global, series: &mut SeriesList, text: &str) {
    let (value, sample) = cut_at(text, ':');
    let (time, pattern) = cut_at(sample, ',');
    let (Ok(time), Ok(pattern)) = (time.parse(), pattern.parse()) else {
        return;
    };
    let mut labels = LabelSet::empty(alloc);
    let _ = labels.add("a", value);
    let mut samples = SampleList::new(alloc);
    let _ = samples.push(Sample { time, pattern });
    let _ = series.push(Series { labels, samples });
}

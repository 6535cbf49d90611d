//! Calls of a gateway over a world, one after another, with the cache handed on: which ranges it reads, entry by entry, and what it
//! answers.
use crate::names::Named;
use crate::played::Played;
use crate::runs::add_answers;
use crate::says::{cut, put, say, say_text};
use crate::setting::{hand_of, sync_rules};
use crate::told::print_ops;
use label_sets::TextList;
use matchers::Selector;
use meta_fetcher::{SyncEnd, View, run_sync};
use std::alloc::Global;
use store_calls::{CallLeft, SeriesEnd, run_call};
use store_ranges::IndexCache;
use world_core::Driven;

/// Prints the reads and the end of each call of a row: CAPACITY NAME.. / ANSWER.. / QUESTION / QUESTION
pub(crate) fn print_calls(rt: &HostRuntime, objects: &[Named], text: &str) {
    let (setting, rest) = text.split_once(" / ").unwrap_or((text, ""));
    let (answers, questions) = rest.split_once(" / ").unwrap_or((rest, ""));
    let (capacity, setting) = cut(setting);
    if let Some(mut hand) = hand_of(rt, objects, setting) {
        say(rt, "");
        match run_sync(rt.alloc(), sync_rules(1000), &mut hand) {
            Driven::Ended(SyncEnd::View(view)) => {
                add_answers(rt.alloc(), objects, &mut hand, answers, false);
                print_asked(rt, &view, &mut hand, capacity, questions);
                drop(view);
            }
            other => {
                drop(other);
                say(rt, "  no view");
            }
        }
        drop(hand);
    }
}

/// Prints what is asked with an empty cache of so many ranges.
fn print_asked(rt: &HostRuntime, view: &View, hand: &mut Played, capacity: &str, questions: &str) {
    let capacity = usize::from(capacity.parse::<u16>().unwrap_or(1)).max(1);
    let Ok(mut cache) = IndexCache::new(rt.alloc(), capacity) else {
        return say(rt, "  no cache");
    };
    for question in questions.split(" / ") {
        let before = hand.entries().len();
        match asked(rt.alloc(), view, question, hand, cache) {
            Some(CallLeft { end, cache: after }) => {
                cache = after;
                put(rt, "  reads");
                print_ops(rt, hand.entries(), before);
                print_end(rt, &end);
                drop(end);
            }
            None => return say(rt, "  no end"),
        }
    }
    drop(cache);
}

/// Asks what stands in words: LOW HIGH SELECTOR.
fn asked(
    alloc: Global,
    view: &View,
    question: &str,
    hand: &mut Played,
    cache: IndexCache,
) -> Option<CallLeft> {
    let (low, rest) = cut(question);
    let (high, text) = cut(rest);
    let none = TextList::new(alloc);
    let Ok(selector) = Selector::read(alloc, text, &none) else {
        drop(cache);
        return None;
    };
    let low = low.parse().unwrap_or(i64::MIN);
    let high = high.parse().unwrap_or(i64::MAX);
    let came = run_call(alloc, view, &selector, &none, low, high, cache, hand);
    drop(selector);
    match came {
        Driven::Ended(left) => Some(left),
        other => {
            drop(other);
            None
        }
    }
}

/// Prints how a call ended: the sources and the series of an answer, or the entry that shows why there is none.
fn print_end(rt: &HostRuntime, end: &SeriesEnd) {
    match end {
        SeriesEnd::Answer { series, sources } => {
            for source in sources.members() {
                put(rt, "  source ");
                say_text(rt, &source.text());
            }
            for one in series.members() {
                let mut text = Vec::new(rt.alloc());
                let _ = one.write(&mut text);
                put(rt, "  series ");
                say_text(rt, text.as_slice());
            }
        }
        SeriesEnd::Missing(number) => print_number(rt, "missing", *number),
        SeriesEnd::Damaged(number) => print_number(rt, "damaged", *number),
        SeriesEnd::Fault(number) => print_number(rt, "fault", *number),
    }
}

fn print_number(rt: &HostRuntime, word: &str, number: u64) {
    let _ = println!(rt; "  {word} {number}");
}

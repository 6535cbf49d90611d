//! Uploads, syncs, cleanings and compactions, one after another over one world or by replies that are written out.
ghost use Rattle.std.specs.Prelude.{◌≤◌};

use crate::names::Named;
use crate::ops::op_of;
use crate::played::Played;
use crate::replies::answer_of;
use crate::says::{cut, put, say};
use crate::setting::{hand_of, rules_of, sync_rules};
use crate::told::{
    print_copies, print_end, print_journal, print_ops, print_seen, print_sync, print_texts,
};
use crate::upload::uploaded;
use cleaner::run_cleaning;
use compactor::run_compaction;
use meta_fetcher::run_sync;
use moment_core::Rules;
use std::alloc::Global;
use world_core::{Acted, Hand};

/// Prints what comes of the rounds of a row: RULES FAIL TICK NAME.. / ROUND / ROUND
pub(crate) fn print_run(rt: &HostRuntime, objects: &[Named], text: &str) {
    let (setting, rounds) = text.split_once(" / ").unwrap_or((text, ""));
    let (rules, setting) = cut(setting);
    if let Some(mut hand) = hand_of(rt, objects, setting) {
        let rules = rules_of(rt.alloc(), rules);
        say(rt, "");
        for round in rounds.split(" / ") {
            print_round(rt, objects, &mut hand, &rules, round);
        }
        drop(rules);
        drop(hand);
    }
}

fn print_round(rt: &HostRuntime, objects: &[Named], hand: &mut Played, rules: &Rules, round: &str)
    requires { 1 ≤ rules.now.page_limit }
{
    let (word, text) = cut(round);
    match word {
        "answers" => add_answers(rt.alloc(), objects, hand, text, true),
        "do" => print_acts(rt, objects, hand, text),
        "texts" => print_texts(rt, hand.entries()),
        "journal" => print_journal(rt, hand.journal()),
        "copies" => print_copies(rt, hand.journal()),
        _ => print_activity(rt, hand, rules, word, text),
    }
}

/// Adds the answers to the next operations, which come at one millisecond unless they tell another: MS ANSWER...
pub(crate) fn add_answers(
    alloc: Global,
    objects: &[Named],
    hand: &mut Played,
    text: &str,
    ends: bool,
) {
    let (ms, words) = cut(text);
    for word in words.split(' ') {
        if let Ok(answer) = answer_of(alloc, objects, ms, word) {
            hand.push(answer, ends);
        }
    }
}

fn print_acts(rt: &HostRuntime, objects: &[Named], hand: &mut Played, words: &str) {
    for word in words.split(' ') {
        put(rt, "  ");
        put(rt, word);
        match op_of(rt.alloc(), objects, word) {
            Ok(op) => match hand.act(op) {
                Acted::Done(seen) => print_seen(rt, seen),
                Acted::Full => say(rt, " -> full"),
                Acted::NoMemory => say(rt, " -> no memory"),
            },
            Err(_) => say(rt, " -> no memory"),
        }
    }
}

/// Prints how an activity ended that may be stopped after so many operations, and what it did.
fn print_activity(rt: &HostRuntime, hand: &mut Played, rules: &Rules, word: &str, stop: &str)
    requires { 1 ≤ rules.now.page_limit }
{
    let before = hand.entries().len();
    let stop = stop.parse::<u32>().ok();
    match word {
        "upload" => print_end(rt, uploaded(rt.alloc(), stop, hand)),
        "clean" => print_end(rt, run_cleaning(rt.alloc(), rules, stop, hand)),
        "compact" => print_end(rt, run_compaction(rt.alloc(), rules, stop, hand)),
        _ => print_sync(rt, run_sync(rt.alloc(), sync_rules(rules.page_limit), hand)),
    }
    print_ops(rt, hand.entries(), before);
}

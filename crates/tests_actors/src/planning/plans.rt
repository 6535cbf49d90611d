//! Rows of plans: blocks told by their times alone, and named by their places. Most of them are answered as another
//! program's planner answered them.

use crate::says::{cut, cut_at, put, put_number, say};
use base::NoMemory;
use block_meta::{BlockPlan, Meta};
use group_planner::{Group, MetaList, overlapping, plan, select, split_by_range};
use label_sets::LabelSet;
use std::alloc::Global;
use ulid_core::{Ulid, UlidList};
use vertical_merge::compacted_plan;

/// Prints the plan of blocks, that of their overlaps, which of them are selected, their parts, or what is compacted of them.
pub(crate) fn print_plan(rt: &HostRuntime, word: &str, text: &str) {
    let group = Group {
        resolution: 0,
        labels: LabelSet::empty(rt.alloc()),
        members: metas_of(rt.alloc(), text),
    };
    match word {
        "plan" => print_places(rt, plan(rt.alloc(), &group)),
        "select" => print_places(rt, select(rt.alloc(), &group.members)),
        "overlapping" => print_places(rt, overlapping(rt.alloc(), &group.members)),
        "parts" => print_parts(rt, &group.members, text),
        "compacted" => print_compacted(rt, &group),
        _ => say(rt, " no row"),
    }
    drop(group);
}

/// The blocks of a row: each is MIN,MAX, and its ULID is its place among them. A word that is no block is left out.
fn metas_of(alloc: Global, text: &str) -> MetaList {
    let mut metas = MetaList::new(alloc);
    for word in text.split_ascii_whitespace() {
        if let Some(meta) = read_meta(alloc, metas.len() as u64, word) {
            let _ = metas.push(meta);
        }
    }
    metas
}

fn read_meta(alloc: Global, place: u64, times: &str) -> Option<Meta> {
    let (begin, end) = cut_at(times, ',');
    let Ok(ulid) = Ulid::from_parts(0, u128::from(place)).to_string(alloc) else {
        return None;
    };
    let ulid = ulid.as_str();
    let Ok(text) = format!(in alloc;
        "{{\"version\":1,\"ulid\":\"{ulid}\",\"minTime\":{begin},\"maxTime\":{end},\"stats\":{{}},\"compaction\":{{\"level\":1,\"sources\":[\"{ulid}\"]}}}}"
    ) else {
        return None;
    };
    Meta::read(alloc, text.as_bytes()).ok()
}

fn print_places(rt: &HostRuntime, ulids: Result<UlidList, NoMemory>) {
    match ulids {
        Ok(ulids) => {
            put_places(rt, &ulids);
            say(rt, "");
        }
        Err(_) => say(rt, " no memory"),
    }
}

/// Prints the place of each block behind a blank.
fn put_places(rt: &HostRuntime, ulids: &UlidList) {
    for ulid in ulids.members() {
        put_number(rt, *ulid);
    }
}

/// Prints the parts of a range, which is the row's first word.
fn print_parts(rt: &HostRuntime, metas: &MetaList, text: &str) {
    let (range, _) = cut(text);
    match range.parse::<i64>() {
        Ok(range) if range > 0 => match split_by_range(rt.alloc(), metas, range) {
            Ok(parts) => {
                for part in parts.members() {
                    put_places(rt, part);
                    put(rt, ";");
                }
                say(rt, "");
            }
            Err(_) => say(rt, " no memory"),
        },
        _ => say(rt, " no range"),
    }
}

/// Prints what a block says that is compacted from two blocks or more.
fn print_compacted(rt: &HostRuntime, group: &Group) {
    if group.members.len() < 2 {
        return say(rt, " too few");
    }
    let first = Ulid::from_parts(0, 0);
    match compacted_plan(rt.alloc(), &group.members, first, &group.labels) {
        Ok(made) => {
            print_made(rt, &made);
            drop(made);
        }
        Err(_) => say(rt, " no memory"),
    }
}

fn print_made(rt: &HostRuntime, made: &BlockPlan) {
    let _ = print!(rt;
        " level {} times {},{} by {} sources",
        made.level,
        made.min_time,
        made.max_time,
        made.source.as_str()
    );
    put_places(rt, &made.sources);
    put(rt, " parents");
    for parent in made.parents.members() {
        put_number(rt, parent.ulid);
        let _ = print!(rt; " {},{}", parent.min_time, parent.max_time);
    }
    say(rt, "");
}

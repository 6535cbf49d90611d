//! Plans of blocks, which gateways a query asks, and what is gathered of their answers.

mod gathered;
mod plans;

use crate::filters::blocks_of;
use crate::names::Named;
pub(crate) use crate::planning::gathered::print_gathered;
pub(crate) use crate::planning::plans::print_plan;
use crate::says::{cut, cut_at, put, put_number, say};
use group_planner::groups;
use label_sets::{Text, TextList};
use moment_core::{Partition, PartitionList};
use querier::fan_out;

/// Prints what each asked gateway is asked. The row is the times that are asked for, and then the gateways' partitions.
pub(crate) fn print_asks(rt: &HostRuntime, text: &str) {
    let (times, words) = cut(text);
    let mut partitions = PartitionList::new(rt.alloc());
    for word in words.split_ascii_whitespace() {
        let _ = partitions.push(partition_of(word));
    }
    if partitions.len() > 16 {
        return say(rt, " too many gateways");
    }
    let times = partition_of(times);
    match fan_out(rt.alloc(), &partitions, times.low, times.high) {
        Ok(asks) => {
            for ask in asks.members() {
                let _ = print!(rt; " {}:{},{}", ask.gateway, ask.low, ask.high);
            }
            say(rt, "");
        }
        Err(_) => say(rt, " no memory"),
    }
}

/// A range of times is LOW,HIGH; an end that is no number is that of all times.
pub(crate) fn partition_of(text: &str) -> Partition {
    let (low, high) = cut_at(text, ',');
    Partition {
        low: low.parse().unwrap_or(i64::MIN),
        high: high.parse().unwrap_or(i64::MAX),
    }
}

/// Prints the groups of some blocks, where that label tells replicas apart: of each its resolution and its members.
pub(crate) fn print_groups(rt: &HostRuntime, objects: &[Named], text: &str) {
    let (replica, blocks) = cut(text);
    let mut replicas = TextList::new(rt.alloc());
    if let Ok(replica) = Text::from_str(rt.alloc(), replica) {
        let _ = replicas.push(replica);
    }
    let found = blocks_of(rt.alloc(), objects, blocks);
    let told = groups(rt.alloc(), &found, &replicas);
    drop(found);
    match told {
        Ok(groups) => {
            for group in groups.members() {
                let _ = print!(rt; " {}:", group.resolution);
                for meta in group.members.members() {
                    put_number(rt, meta.ulid);
                }
                put(rt, ";");
            }
            drop(groups);
            say(rt, "");
        }
        Err(_) => say(rt, " no memory"),
    }
}

//! What a script was read as, part by part, with its workers and their seats, as rows print it.

use crate::says::{put, say, show, tell};
use base::NoMemory;
use script_core::{Block, Body, Phase, Script, WorkerList};

/// A script of three phases.
pub(crate) static PHASES: &str =
    "rule tick 5ms\nrule retention 1h\ngateway g\nblock 0000000000000000000000000A 1000 2000 {}\nseries {b=\"1\"} 1000:3ff0000000000000\nseries {a=\"1\"} 1000:0000000000000001 1001:0000000000000002\nshelf 0000000000000000000000000B {}\nat 0\nupload 0000000000000000000000000A\nsync g\nupload 0000000000000000000000000A\nat 1800000\nquery 0 5000 up\nsync g\nat 3600000\nclean\nupload 0000000000000000000000000B stop 3\ncompact stop 12\nsync g";

/// Prints what the script has, its workers, and those of the third phase behind two.
pub(crate) fn print_parts(rt: &HostRuntime, script: &Script) {
    print_rules(rt, script);
    for block in script.blocks.members() {
        print_block(rt, block);
    }
    for phase in script.phases.members() {
        print_phase(rt, phase);
    }
    print_workers(rt, "first phase", script.workers(rt.alloc(), 0));
    print_workers(rt, "second phase", script.workers(rt.alloc(), 1));
    print_workers(rt, "third phase", script.workers(rt.alloc(), 2));
    print_workers(
        rt,
        "third phase, behind two",
        script.workers_after(rt.alloc(), 2, 2),
    );
}

fn print_rules(rt: &HostRuntime, script: &Script) {
    tell(rt, "tick ", &script.rules.tick.ms);
    tell(rt, ", page-limit ", &script.rules.page_limit);
    put(rt, "\nretention ");
    show(rt, &script.rules.retention);
    for gateway in script.gateways.members() {
        put(rt, "gateway ");
        say(rt, gateway.as_str());
    }
    for partition in script.partitions.members() {
        tell(rt, "from ", &partition.low);
        put(rt, " to ");
        show(rt, &partition.high);
    }
    put(rt, "selectors: ");
    show(rt, &script.selectors.len());
}

fn print_block(rt: &HostRuntime, block: &Block) {
    tell(rt, "block ", &block.ulid.entropy());
    match &block.body {
        Body::Inline {
            min_time,
            max_time,
            series,
        } => {
            tell(rt, " from ", min_time);
            put(rt, " to ");
            show(rt, max_time);
            for one in series.members() {
                tell(rt, "series, a: ", &one.labels.value("a"));
                put(rt, ", samples: ");
                show(rt, &one.samples.len());
            }
        }
        Body::OnShelf => say(rt, " on the shelf"),
    }
}

fn print_phase(rt: &HostRuntime, phase: &Phase) {
    tell(rt, "line ", &phase.line);
    put(rt, ": a phase from ");
    show(rt, &phase.moment.ms);
    for task in phase.tasks.members() {
        tell(rt, "line ", &task.line);
        put(rt, ": ");
        show(rt, &task.work);
    }
}

fn print_workers(rt: &HostRuntime, phase: &str, workers: Result<WorkerList, NoMemory>) {
    put(rt, "= workers of the ");
    say(rt, phase);
    if let Ok(workers) = &workers {
        for worker in workers.members() {
            tell(rt, "seat ", &worker.seat);
            tell(rt, ", gateway ", &worker.gateway);
            put(rt, ", tasks ");
            show(rt, &worker.tasks.members());
        }
    }
    drop(workers);
}

use crate::says::{put, say, say_hex, tell};
use label_sets::{Series, sample_count};
use script_core::{Block, Body, Script};

/// Prints how much there is in the generated day, block by block and phase by phase.
pub(crate) fn print_day(rt: &HostRuntime, script: &Script) {
    tell(rt, "", &script.blocks.len());
    tell(rt, " blocks, ", &script.selectors.len());
    say(rt, " selectors");
    for block in script.blocks.members() {
        print_block(rt, block);
    }
    for phase in script.phases.members() {
        tell(rt, "line ", &phase.line);
        tell(rt, ": a phase from ", &phase.moment.ms);
        tell(rt, ", ", &phase.tasks.len());
        say(rt, " tasks");
    }
}

/// Prints a block's times, how many series and samples it has, and all its patterns in one.
fn print_block(rt: &HostRuntime, block: &Block) {
    tell(rt, "block ", &block.ulid.time());
    tell(rt, " ", &block.ulid.entropy());
    match &block.body {
        Body::Inline {
            min_time,
            max_time,
            series,
        } => {
            tell(rt, " from ", min_time);
            tell(rt, " to ", max_time);
            tell(rt, ": ", &series.len());
            tell(rt, " series, ", &sample_count(series.members()));
            put(rt, " samples, ");
            say_hex(rt, &mixed_patterns(series.members()).to_be_bytes());
        }
        Body::OnShelf => say(rt, " on the shelf"),
    }
}

fn mixed_patterns(series: &[Series]) -> u64 {
    let mut mixed = 0u64;
    for one in series {
        for sample in one.samples.members() {
            mixed ^= sample.pattern;
        }
    }
    mixed
}

//! Whole scripts, the workers of each phase of which run beside each other.

use crate::lines::ONE_BLOCK;
use crate::says::text_of;
use crate::setting::{CALM, Setting};
use crate::threads::gates::Watch;
use crate::tool::{Ended, end_over_memory};
use bucket_core::{Fail, FileList};
use phase_runner::Open;
use std::alloc::Global;
use std::sync::Wait;
use std::thread::Threads;

const ONE_BLOCK_REPORT: &str = "upload 0000000000000000000000000A: ok 3 objects
sync g: 1 blocks
query 0 5000: 1 series 1 samples 1 sources
source 0000000000000000000000000A
series {__name__=\"up\"} 1000:3ff0000000000000
";

/// Two uploads beside each other, of blocks with one series, whose samples are joined.
const TWO_BLOCKS: &str = "gateway g
block 0000000000000000000000000A 1000 4000 {}
series {a=\"x\"} 1000:0000000000000001 3000:0000000000000003
block 0000000000000000000000000B 1000 4000 {}
series {a=\"x\"} 1000:0000000000000001 2000:0000000000000002
at 0
upload 0000000000000000000000000A
upload 0000000000000000000000000B
at 1800000
sync g
query 0 5000 {}";

const TWO_BLOCKS_REPORT: &str = "upload 0000000000000000000000000A: ok 3 objects
upload 0000000000000000000000000B: ok 3 objects
sync g: 2 blocks
query 0 5000: 1 series 3 samples 2 sources
source 0000000000000000000000000A
source 0000000000000000000000000B
series {a=\"x\"} 1000:0000000000000001 2000:0000000000000002 3000:0000000000000003
";

/// What a script with a large answer says before its series.
const LARGE_BLOCK: &str = "gateway g
gateway h
gateway i
block 0000000000000000000000000A 0 7200000 {}";

/// What it says behind them.
const LARGE_QUERY: &str = "at 0
upload 0000000000000000000000000A
at 1800000
sync g
sync h
sync i
query 0 7200000 {}";

/// What its report says before its series.
const LARGE_REPORT: &str = "upload 0000000000000000000000000A: ok 3 objects
sync g: 1 blocks
sync h: 1 blocks
sync i: 1 blocks
query 0 7200000: 12 series 126000 samples 1 sources
source 0000000000000000000000000A
";

/// The call with threads, and its words.
const REPLAY: (&str, &str) = ("replay", "memory none");

/// The call of the bucket that fails in the end: the first one opens it.
const FAILING: Fail = Fail {
    call: 3,
    landed: false,
};

/// More calls than a run makes of its source or of its sink.
const MANY_CALLS: u64 = 16;

/// Two uploads wait for each other before their operation number 2, so neither comes past it unless both run.
pub fn uploads_meet<R: Threads + Wait + Sync>(rt: &R, alloc: Global) -> bool {
    let gate = Watch::new(true, 1, 2);
    let files = FileList::new(alloc);
    let ended = end_over_memory(rt, alloc, REPLAY, files, TWO_BLOCKS, &CALM, &gate);
    let good = has_told(&ended, TWO_BLOCKS_REPORT) && gate.saw_both();
    drop(ended);
    good
}

/// Of two uploads one meets the call that fails, and the other is done.
pub fn a_fault_stops_one_upload<R: Threads + Wait + Sync>(rt: &R, alloc: Global) -> bool {
    let setting = Setting {
        bucket: Some(FAILING),
        ..CALM
    };
    let files = FileList::new(alloc);
    let ended = end_over_memory(rt, alloc, REPLAY, files, TWO_BLOCKS, &setting, &Open);
    let text = text_of(ended.written());
    let good = ended.status == 5
        && lines_with(text, "upload", ": fault ") == 1
        && lines_with(text, "upload", ": ok 3 objects") == 1;
    drop(ended);
    good
}

/// How many lines begin with the one and hold the other.
fn lines_with(text: &str, first: &str, held: &str) -> usize {
    text.lines()
        .filter(|line| line.starts_with(first) && line.contains(held))
        .count()
}

/// What a run reads its script from, or writes its report to.
#[derive(Clone, Copy)]
pub enum Stream {
    Source,
    Sink,
}

/// The source or the sink fails at each of its calls in turn, until it is called less often. Where the source fails, the script is
/// not run.
pub fn fails_in_turn<R: Threads + Wait + Sync>(rt: &R, alloc: Global, stream: Stream) -> bool {
    for call in 1..MANY_CALLS {
        let mut setting = CALM;
        match stream {
            Stream::Source => setting.source = Some(call),
            Stream::Sink => setting.sink = Some(call),
        }
        let files = FileList::new(alloc);
        let ended = end_over_memory(rt, alloc, REPLAY, files, ONE_BLOCK, &setting, &Open);
        let is_whole = has_told(&ended, ONE_BLOCK_REPORT);
        let has_failed = match stream {
            Stream::Source => {
                ended.status == 3 && ended.written() == b"script read fault\n".as_slice()
            }
            Stream::Sink => ended.status == 4,
        };
        drop(ended);
        if is_whole {
            return call > 1;
        }
        if !has_failed {
            return false;
        }
    }
    false
}

/// Whether a run ended as asked, with this report.
fn has_told(ended: &Ended, report: &str) -> bool {
    ended.status == 0 && ended.written() == report.as_bytes()
}

/// Three gateways see one block and are asked for all of it. Their answers are so large that they are compared in threads, where there
/// are three processors, and that the lines of the one that is told are put in threads, where there are two.
pub fn a_large_answer_is_told<R: Threads + Wait + Sync>(rt: &R, alloc: Global) -> bool {
    let series = large_series(alloc);
    let Ok(script) = format!(in alloc;
        "{LARGE_BLOCK}
{series}{LARGE_QUERY}"
    ) else {
        return false;
    };
    let Ok(report) = format!(in alloc; "{LARGE_REPORT}{series}") else {
        return false;
    };
    let files = FileList::new(alloc);
    let ended = end_over_memory(rt, alloc, REPLAY, files, script.as_str(), &CALM, &Open);
    let good = has_told(&ended, report.as_str());
    drop(ended);
    good
}

/// The lines of twelve series, each of which has a thousand samples more than the one before it. A report has the same lines.
fn large_series(alloc: Global) -> String {
    let mut lines = String::new(alloc);
    for (place, letter) in "abcdefghijkl".chars().enumerate() {
        if let Ok(front) = format!(in alloc; "series {{s=\"{letter}\"}}") {
            let _ = lines.push_str(front.as_str());
        }
        for number in 0..5_000 + 1_000 * place {
            if let Ok(sample) = format!(in alloc; " {}:{number:016}", 10 * number) {
                let _ = lines.push_str(sample.as_str());
            }
        }
        let _ = lines.push('\n');
    }
    lines
}

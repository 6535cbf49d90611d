//! The generated day: its script is run over a bucket in memory, and a summary takes the place of the report.

ghost use Rattle.std.specs.Prelude.{◌≡◌, ◌++◌, [], List, None, Some, Ok, Err, Option, IfSome, IsSomeAnd, OnOk};
ghost use Rattle.world_core.specs.Worlds.{IsJournal, IsOfBytes, failed_count};
ghost use Rattle.script_core.specs.Lawful.{IsLawfulScript};
ghost use Rattle.call_verdicts.specs.Kept.{IsTrueOfStore};
ghost use Rattle.call_verdicts.specs.Asked.{WasAsked, calls_asked, for_opening};
ghost use Rattle.call_verdicts.specs.Noted.{IsNoted, met};
ghost use Rattle.replay_cli.specs.Days.{EndsDay, IsBareFull, IsDay, IsDayNoted, IsDayRun};

use base::NoMemory;
use bucket_core::{Bucket, FailList, MemoryBucket};
use call_verdicts::report_lines::{Tally, put_breach_of};
use call_verdicts::script_running::Broken;
use call_verdicts::{Ended, Verdict};
use generated_day::generated_script;
use line_running::do_in_line;
use phase_runner::Gate;
use run_notes::{Finished, RunNote};
use script_core::Script;
use std::alloc::Global;
use world_core::{Entry, Journal, World};

/// Runs the generated day with this number. The bucket is its own, and is not handed back; the note of the run comes beside.
pub(crate) fn run_day<B: Bucket, F, G: Gate>(
    alloc: Global,
    number: u64,
    gate: &G,
) -> (Ended<B, F>, Option<RunNote<MemoryBucket>>)
    ensures came { IsSomeAnd result.0.journal
        (λ entries. IsDayRun number entries result.0.verdict) }
    ensures store { result.0.store ≡ None }
    ensures shelf { result.0.shelf ≡ None }
    ensures note { result.0.note ≡ None }
    ensures noted { IsDayNoted result.0.verdict result.0.journal result.1 }
{
    let (verdict, journal, note) = run_alone(alloc, number, gate);
    let ended = Ended {
        verdict,
        journal: Some(journal),
        store: None,
        shelf: None,
        note: None,
    };
    (ended, note)
}

/// What the day comes to, the journal over its bucket, and the note of the run, where one began.
fn run_alone<G: Gate>(
    alloc: Global,
    number: u64,
    gate: &G,
) -> (Verdict, Journal, Option<RunNote<MemoryBucket>>)
    ensures came { IsDayRun number result.1 result.0 }
    ensures noted { IsDayNoted result.0 (Some result.1) result.2 }
{
    let Ok(script) = generated_script(alloc, number) else {
        return (Verdict::NoMemory, Journal::empty(alloc), None);
    };
    let bucket = MemoryBucket::new(alloc, FailList::new(alloc));
    match World::open(alloc, bucket, script.rules.tick) {
        Ok(world) => {
            let (verdict, journal, bucket, note) = run_script(alloc, &script, world, gate);
            drop(bucket);
            drop(script);
            (verdict, journal, note)
        }
        Err(refused) => {
            drop(refused);
            drop(script);
            (Verdict::NoMemory, Journal::empty(alloc), None)
        }
    }
}

/// Does the tasks of a script that takes nothing from a shelf, one after another.
fn run_script<B: Bucket, G: Gate>(
    alloc: Global,
    script: &Script,
    world: World<B>,
    gate: &G,
) -> (Verdict, Journal, B, Option<RunNote<B>>)
    requires lawful { IsLawfulScript script.now }
    requires fresh { world.journal ≡ [] }
    requires tick { world.tick ≡ script.now.rules.tick.ms }
    requires asked { WasAsked (calls_asked B.told) for_opening world.bucket }
    ensures came { IsDay script.now result.1 result.0 }
    ensures back { IsTrueOfStore B.told result.1 result.2 }
    ensures unfailed { (B.told world.bucket).quiet → failed_count result.1 ≡ 0 }
    ensures noted { IsNoted met B.told result.0 (Some result.1) (Some result.2) result.3 }
{
    let (came, tally, hand) = do_in_line(alloc, script, &[], world, gate);
    let world = hand.world();
    let journal = world.journal();
    let verdict = verdict_on(alloc, script, journal.entries(), came, tally);
    let (note, journal, bucket) = Finished::of_hand(hand).into_parts();
    (verdict, journal, bucket, note)
}

/// What the run comes to that left this journal, by what broke it off.
fn verdict_on(
    alloc: Global,
    script: &Script,
    journal: &[Entry],
    came: Result<(), Broken>,
    tally: Tally,
) -> Verdict
    requires lawful { IsLawfulScript script.now }
    requires kept { IsJournal script.now.rules.tick.ms journal.now }
    requires bytes { IsOfBytes journal.now }
    ensures whole { came ≡ Ok tt → EndsDay script.now journal.now tally result }
    ensures full { came ≡ Err Broken.Full → IsBareFull result }
    ensures none { came ≡ Err Broken.NoMemory → result ≡ Verdict.NoMemory }
{
    match came {
        Ok(()) => whole_day(alloc, script, journal, tally),
        Err(Broken::Full) => Verdict::Full(Vec::new(alloc)),
        Err(Broken::NoMemory) => Verdict::NoMemory,
    }
}

/// The summary of a day that came to its end.
fn whole_day(alloc: Global, script: &Script, journal: &[Entry], tally: Tally) -> Verdict
    requires lawful { IsLawfulScript script.now }
    requires kept { IsJournal script.now.rules.tick.ms journal.now }
    requires bytes { IsOfBytes journal.now }
    ensures { EndsDay script.now journal.now tally result }
{
    let as_asked = tally.as_asked;
    let Ok(mut text) = tally.into_text(alloc, script) else {
        return Verdict::NoMemory;
    };
    match put_breach_of(alloc, script, journal, &mut text) {
        Ok(()) => Verdict::Report(text, as_asked),
        Err(NoMemory) => Verdict::NoMemory,
    }
}

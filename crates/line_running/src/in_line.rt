//! A script's tasks are done one after another.

ghost use Rattle.std.specs.Prelude.{◌≡◌, [], List, Err, IsTrue, false};
ghost use Rattle.world_core.specs.Keeping.{IsFull};
ghost use Rattle.script_core.specs.Lawful.{IsLawfulScript};
ghost use Rattle.report_lines.specs.script_running.specs.Shelves.{AreAllAtHand, setting_by};
ghost use Rattle.report_lines.specs.script_running.specs.Tasks.{is_full_came};
ghost use Rattle.report_lines.specs.script_running.specs.declared.sight.Sight.{Sight};
ghost use Rattle.run_notes.specs.LineHands.{KeepsRun};
ghost use Rattle.line_running.specs.Progress.{RunCame};

use crate::gated_hand::GatedHand;
use crate::phases::{Progress, run_phases};
use bucket_core::Bucket;
use phase_runner::Gate;
use report_lines::PhaseReport;
use report_lines::script_running::{Broken, Means, ShelfBlock, selector_texts};
use run_notes::LineHand;
use script_core::Script;
use std::alloc::Global;
use world_core::World;

/// Does the tasks one after another, in the order of their lines, and reports those of the phases that are finished. What broke the
/// run off, if anything did, comes with the report and with the hand that did it all. The gate is told how far the run is.
pub fn do_in_line<B: Bucket, R: PhaseReport + Drop, G: Gate>(
    alloc: Global,
    script: &Script,
    shelf: &[ShelfBlock],
    world: World<B>,
    gate: &G,
) -> (Result<(), Broken>, R, LineHand<B>)
    requires lawful { IsLawfulScript script.now }
    requires at_hand { AreAllAtHand script.now shelf.now }
    requires fresh { world.journal ≡ [] }
    ensures came { (gateways : List Sight)
        × RunCame R.tells (setting_by script.now shelf.now) gateways
        result.2.world.journal result.1 result.0 }

    // The full journal broke the run off just where an operation was answered so.
    ensures full { result.0 ≡ Err Broken.Full → IsFull result.2.world.journal }
    ensures refused { result.2.refused ≡ is_full_came result.0 }

    // The hand was made over this world.
    ensures wanted { IsTrue result.2.wanted → result.0 ≡ Err Broken.NoMemory }
    ensures keeps { KeepsRun B.told world false world
        result.2.opened.value result.2.wanted result.2.world }
{
    let hand = LineHand::new(world);
    let Ok(texts) = selector_texts(alloc, &script.selectors) else {
        return (Err(Broken::NoMemory), R::empty(alloc), hand);
    };
    let Ok(mut progress) = Progress::new(alloc, script) else {
        return (Err(Broken::NoMemory), R::empty(alloc), hand);
    };
    let means = Means::lend(alloc, script, shelf, texts.members());
    let mut gated = GatedHand::new(hand, gate);
    let came = run_phases(alloc, script, &means, &mut progress, &mut gated);
    gate.ends();
    (came, progress.into_report(), gated.into_hand())
}

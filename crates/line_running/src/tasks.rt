//! One task of a script, done in the order of the lines.

ghost use Rattle.std.specs.Prelude.{◌≡◌, ◌≢◌, ◌<◌, ◌^◌, ℕ, Err, IfOk, IfSome, Some, length, slice_get};
ghost use Rattle.script_core.specs.Lawful.{IsLawfulScript};
ghost use Rattle.script_workers.specs.Hands.{gateway_of, hands_of_task, own_hand};
ghost use Rattle.script_workers.specs.declared.hand.Hand.{Hand};
ghost use Rattle.script_workers.specs.declared.work.Work.{Work};
ghost use Rattle.report_lines.specs.lifecycle_core.specs.Holdings.{Holdings};
ghost use Rattle.report_lines.specs.script_running.specs.Beside.{AreSeen};
ghost use Rattle.report_lines.specs.script_running.specs.Lending.{setting_in};
ghost use Rattle.report_lines.specs.script_running.specs.Outcomes.{AreAllParts, IsOutcomeOf};
ghost use Rattle.report_lines.specs.script_running.specs.Tasks.{Allows, is_full_came, is_short_came};
ghost use Rattle.run_notes.specs.RunHands.{TurnedRun};
ghost use Rattle.line_running.specs.Progress.{PartStep, TaskStep, line_by};

use crate::gated_hand::GatedHand;
use crate::seats::Seats;
use base::NoMemory;
use bucket_core::Bucket;
use phase_runner::Gate;
use querier::InTurn;
use report_lines::script_running::{Broken, Means, Outcome, Part, Sight, outcome_of, run_task};
use script_core::{Hand, Script, Task, Work};
use std::alloc::Global;

/// The tasks of a phase, and with what they are done: what is lent of the script, and the seats of those who do them.
#[derive(Drop)]
pub(crate) struct PhaseWork<'a> {
    pub alloc: Global,
    pub script: &'a Script,
    pub means: &'a Means<'a>,
    pub tasks: &'a [Task],
    pub seats: Seats,
}

/// Does the task at a place, before the next one begins: those who do it come one after another, and what they came to is gathered.
pub(crate) fn do_task<B: Bucket, G: Gate>(
    phase: &PhaseWork<'_>,
    task: &Task,
    place: usize,
    sights: &mut [Sight],
    hand: &mut GatedHand<'_, B, G>,
) -> Result<Outcome, Broken>
    requires lawful { IsLawfulScript phase.now.means.now.script }
    requires work { Allows phase.now.means.now.script task.now.work }
    requires ready { length sights.old ≡ length phase.now.means.now.script.gateways }
    ensures step { (views : Holdings) → AreSeen views sights.old
        → TaskStep (line_by (setting_in phase.now.means.now) phase.now.seats.workers)
        (record { place = place; task = task.now }) views sights.new
        hand.old.world.journal hand.new.world.journal result }
    ensures hand { TurnedRun B.told hand.old hand.new (is_full_came result)
        (is_short_came result) }
    ensures ready { length sights.new ≡ length sights.old }
{
    let count = hand_count(&task.work, sights.len());
    let Ok(mut parts) = Vec::with_capacity(phase.alloc, count) else {
        return Err(Broken::NoMemory);
    };
    for number in 0..count {
        let who = hand_at(&task.work, place, number);
        hand.at_seat(phase.seats.seat_of(who));
        match do_part(phase.means, task, who, sights, hand) {
            Ok(part) => parts.push_reserved(part),
            Err(broken) => {
                drop(parts);
                return Err(broken);
            }
        }
    }
    gathered_outcome(phase.alloc, parts)
}

/// How many do a task, where there are so many gateways.
fn hand_count(work: &Work, gateways: usize) -> usize
    ensures { (place : ℕ) → result ≡ length (hands_of_task gateways place work.now) }
{
    match work.asking() {
        Some(_) => gateways,
        None => 1,
    }
}

/// Who is the one of this number that does the task at a place.
fn hand_at(work: &Work, place: usize, number: usize) -> Hand
    requires few { number < 2 ^ 32 }
    ensures { (gateways : ℕ) → number < length (hands_of_task gateways place work.now)
        → slice_get (hands_of_task gateways place work.now) number ≡ Some result }
{
    match work.asking() {
        Some(_) => Hand::Gateway(number as u32),
        None => own_hand(work, place),
    }
}

/// Who does the task at a place that does not ask all gateways.
fn own_hand(work: &Work, place: usize) -> Hand
    ensures { result ≡ own_hand place work.now }
{
    match work {
        Work::Sync(gateway) => Hand::Gateway(*gateway),
        _ => Hand::Alone(place as u64),
    }
}

/// Does one worker's part of a task, from the seat at which the hand is.
fn do_part<B: Bucket, G: Gate>(
    means: &Means<'_>,
    task: &Task,
    who: Hand,
    sights: &mut [Sight],
    hand: &mut GatedHand<'_, B, G>,
) -> Result<Part, Broken>
    requires work { Allows means.now.script task.now.work }
    requires within { IfSome (gateway_of who) (λ gateway. gateway < length sights.old) }
    ensures step { (seat : Hand → ℕ) (place : ℕ) (views : Holdings) → hand.old.seat ≡ seat who
        → AreSeen views sights.old
        → PartStep (record { setting = setting_in means.now; seat = seat })
        (record { place = place; hand = who; task = task.now }) views sights.new
        hand.old.world.journal hand.new.world.journal result }
    ensures hand { TurnedRun B.told hand.old hand.new (is_full_came result)
        (is_short_came result) }
    ensures ready { length sights.new ≡ length sights.old }
{
    match who {
        Hand::Alone(_) => {
            let mut unseen = Sight::new();
            let came = run_task(means, None, &task.work, &mut unseen, hand);
            drop(unseen);
            came
        }
        Hand::Gateway(number) => {
            let sight = &mut sights[number as usize];
            run_task(means, Some(number), &task.work, sight, hand)
        }
    }
}

/// How a task came out, by all its parts.
fn gathered_outcome(alloc: Global, parts: Vec<Part>) -> Result<Outcome, Broken>
    requires few { length parts.items < 2 ^ 32 }
    ensures whole { (work : Work) → AreAllParts work parts.items
        → IfOk result (IsOutcomeOf work parts.items) }
    ensures why { result ≢ Err Broken.Full }
{
    match outcome_of(alloc, parts, &InTurn) {
        Ok(outcome) => Ok(outcome),
        Err(NoMemory) => Err(Broken::NoMemory),
    }
}

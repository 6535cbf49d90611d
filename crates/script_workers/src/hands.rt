//! Which workers the tasks of a phase need.

ghost use Rattle.std.specs.Prelude.{◌≡◌, ◌≤◌, ℕ, OnOk, OnErr, IfOk, length, map, min, take};
ghost use Rattle.std.specs.List.{list_any, fold, range_with_len};
ghost use Rattle.script_workers.specs.declared.hand.Hand.TheVariants as hand_kinds;
ghost use Rattle.script_workers.specs.Hands.{greatest, gateway_count, own_hand, same_hand, with_hand, with_hands, hands_of, does, places_from};

use crate::hand::Hand;
use crate::{Task, Work};
use base::{NoMemory, cut_on_err};
use label_sets::TextList;
use std::alloc::Global;
use wire_bytes::NumberList;

/// How many gateways there are, as far as a place can name them.
pub fn gateway_count(gateways: &TextList) -> u32
    ensures { result ≡ gateway_count gateways.now }
{
    small_count(gateways.len())
}

/// A count, or the greatest number of 32 bits where the count is greater.
pub(crate) fn small_count(count: usize) -> u32
    ensures { result ≡ min count greatest }
{
    u32::try_from(count).unwrap_or(u32::MAX)
}

/// Adds the hands that a task needs and that are not there yet, at the end.
pub fn add_hands(
    hands: &mut Vec<Hand>,
    gateways: u32,
    place: u64,
    work: &Work,
) -> Result<(), NoMemory>
    ensures put { OnOk result
        (hands.new.items ≡ with_hands gateways hands.old.items place work.now) }
    ensures kept { OnErr result (hands.new.items ≡ hands.old.items) }
{
    let before = hands.len();
    let put = put_hands(hands, gateways, place, work);
    cut_on_err(hands, before, put)
}

#[tactic(auto, unfolding(crate::specs::Hands::with_hands, crate::specs::Hands::hands_of_task))]
fn put_hands(hands: &mut Vec<Hand>, gateways: u32, place: u64, work: &Work) -> Result<(), NoMemory>
    ensures put { OnOk result
        (hands.new.items ≡ with_hands gateways hands.old.items place work.now) }
    ensures front { take (length hands.old.items) hands.new.items ≡ hands.old.items }
{
    if work.asking().is_some() {
        add_gateways(hands, gateways)
    } else {
        add_hand(hands, own_hand(place, work))
    }
}

/// Who does the task at a place, where it does not ask all gateways.
fn own_hand(place: u64, work: &Work) -> Hand
    ensures { result ≡ own_hand place work.now }
{
    match work {
        Work::Sync(gateway) => Hand::Gateway(*gateway),
        _ => Hand::Alone(place),
    }
}

fn add_gateways(hands: &mut Vec<Hand>, gateways: u32) -> Result<(), NoMemory>
    ensures put { OnOk result (hands.new.items
        ≡ fold with_hand hands.old.items (map hand_kinds.Gateway (range_with_len 0 gateways))) }
    ensures front { take (length hands.old.items) hands.new.items ≡ hands.old.items }
{
    for gateway in 0..gateways {
        add_hand(hands, Hand::Gateway(gateway))?;
    }
    Ok(())
}

fn add_hand(hands: &mut Vec<Hand>, hand: Hand) -> Result<(), NoMemory>
    ensures put { OnOk result (hands.new.items ≡ with_hand hands.old.items hand) }
    ensures front { (n : ℕ) → n ≤ length hands.old.items
        → take n hands.new.items ≡ take n hands.old.items }
    ensures longer { length hands.old.items ≤ length hands.new.items }
{
    if !has_hand(hands.as_slice(), hand) {
        hands.push(hand)?;
    }
    Ok(())
}

fn has_hand(hands: &[Hand], hand: Hand) -> bool
    ensures { result ≡ list_any (same_hand hand) hands.now }
{
    hands.iter().any(|other| hand.is(*other))
}

/// Whether the task at a place is one of those that a hand does.
#[tactic(auto, unfolding(crate::specs::Hands::hands_of_task))]
pub(crate) fn does(gateways: u32, hand: Hand, place: u64, work: &Work) -> bool
    ensures { result ≡ does gateways hand place work.now }
{
    if work.asking().is_some() {
        hand.is_among(gateways)
    } else {
        hand.is(own_hand(place, work))
    }
}

/// Who does the tasks of a phase, each once, in the order of their first tasks.
pub(crate) fn hands_of(alloc: Global, gateways: u32, tasks: &[Task]) -> Result<Vec<Hand>, NoMemory>
    ensures { IfOk result (λ hands. hands.items ≡ hands_of gateways tasks.now) }
{
    let mut hands = Vec::new(alloc);
    for (place, task) in tasks.iter().enumerate() {
        add_hands(&mut hands, gateways, place as u64, &task.work)?;
    }
    Ok(hands)
}

/// The places of the tasks that a hand does.
pub(crate) fn places_of(
    alloc: Global,
    gateways: u32,
    hand: Hand,
    tasks: &[Task],
) -> Result<NumberList, NoMemory>
    ensures { IfOk result (λ places. places ≡ places_from gateways hand 0 tasks.now) }
{
    let mut places = NumberList::new(alloc);
    for (place, task) in tasks.iter().enumerate() {
        if does(gateways, hand, place as u64, &task.work) {
            places.push(place as u64)?;
        }
    }
    Ok(places)
}

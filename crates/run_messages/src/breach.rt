//! The last line of a report, which tells the breach of its journal.

ghost use Rattle.std.specs.Prelude.{◌≡◌, option_copied};
ghost use Rattle.std.specs.Result.{result_ok};
ghost use Rattle.base.specs.Decimal.{unsigned_of};
ghost use Rattle.run_messages.specs.Breaches.{before_colon, breach_of, breach_with, rule_of};

use base::read_unsigned;
use breach_finding::{Breach, BreachRule};
use script_fields::next_field;

/// The breach that a line tells behind its first word, as in `breach Z4 entry 63: 266400101 over 174600001`.
#[tactic(auto, unfolding(crate::specs::Breaches::breach_of))]
pub(crate) fn breach_of(left: Option<&str>) -> Option<Breach>
    ensures { result ≡ breach_of (option_copied left.entry) }
{
    let (rule, left) = next_field(left);
    let (_, left) = next_field(left);
    let (entry, left) = next_field(left);
    let (found, left) = next_field(left);
    let (_, left) = next_field(left);
    let (allowed, _) = next_field(left);
    breach_with(
        rule_of(rule),
        number_of(before_colon(entry)),
        number_of(found),
        number_of(allowed),
    )
}

/// The breach, where all of it is told.
#[tactic(auto, unfolding(crate::specs::Breaches::breach_with))]
fn breach_with(
    rule: Option<BreachRule>,
    entry: Option<u64>,
    found: Option<u64>,
    allowed: Option<u64>,
) -> Option<Breach>
    ensures { result ≡ breach_with rule entry found allowed }
{
    let (Some(rule), Some(entry)) = (rule, entry) else {
        return None;
    };
    let (Some(found), Some(allowed)) = (found, allowed) else {
        return None;
    };
    Some(Breach {
        rule,
        entry,
        found,
        allowed,
    })
}

fn number_of(text: &str) -> Option<u64>
    ensures { result ≡ result_ok (unsigned_of text.now) }
{
    read_unsigned(text).ok()
}

#[tactic(auto, unfolding(crate::specs::Breaches::before_colon))]
fn before_colon(text: &str) -> &str
    ensures { result.now ≡ before_colon text.now }
{
    match text.split_once(':') {
        Some((before, _)) => before,
        None => text,
    }
}

#[tactic(auto, unfolding(crate::specs::Breaches::rule_of))]
fn rule_of(word: &str) -> Option<BreachRule>
    ensures { result ≡ rule_of word.now }
{
    if word == "bucket" {
        Some(BreachRule::Bucket)
    } else if word == "Z1" {
        Some(BreachRule::UploadTime)
    } else if word == "Z2" {
        Some(BreachRule::MarkTime)
    } else if word == "Z3" {
        Some(BreachRule::SyncTime)
    } else if word == "Z4" {
        Some(BreachRule::ViewTime)
    } else if word == "Z5" {
        Some(BreachRule::ReadTime)
    } else {
        None
    }
}

//! What a line of a report says went wrong.

ghost use Rattle.std.specs.Prelude.{◌≡◌, option_copied, option_map};
ghost use Rattle.run_messages.specs.Breaches.{breach_of};
ghost use Rattle.run_messages.specs.ScriptFindings.{script_finding};
ghost use Rattle.run_messages.specs.Findings.{behind_name, finding_of, finding_of_words, is_task, numbered_finding};

use crate::breach::breach_of;
use crate::script_finding::{ScriptFinding, script_finding};
use base::read_unsigned;
use breach_finding::Breach;
use script_fields::next_field;

/// A failure as a line of a report tells it. A number is that of an entry of the journal, or of the cause of a refusal.
#[derive(Clone, Copy, Debug, PartialEq, Eq)]
pub enum Finding {
    Fault(u64),
    Missing(u64),
    Damaged(u64),
    Refused(u64),
    NoView,
    TooMany,
    TooLarge,
    Script(ScriptFinding),
    Breach(Breach),
}

impl Finding {
    ghost use Rattle.std.specs.Prelude.{◌≡◌};
    ghost use Rattle.run_messages.specs.Messages.{entry_number};

    /// The number of the entry that the failure names, or 0.
    pub fn entry(self) -> u64
        ensures { result ≡ entry_number self }
    {
        match self {
            Finding::Fault(entry) | Finding::Missing(entry) | Finding::Damaged(entry) => entry,
            Finding::Breach(breach) => breach.entry,
            Finding::Refused(_)
            | Finding::NoView
            | Finding::TooMany
            | Finding::TooLarge
            | Finding::Script(_) => 0,
        }
    }
}

/// The failure of which a line tells, if it tells of one.
#[tactic(auto, unfolding(crate::specs::Findings::finding_of))]
pub fn finding_of(line: &str) -> Option<Finding>
    ensures { result ≡ finding_of line.now }
{
    let (word, left) = next_field(Some(line));
    if word == "breach" {
        return breach_finding(left);
    }
    if word == "script" {
        return refusal_finding(left);
    }
    let (end, behind) = next_field(behind_name(word, left));
    let (number, _) = next_field(behind);
    finding_of_words(end, number)
}

fn breach_finding(left: Option<&str>) -> Option<Finding>
    ensures { result ≡ option_map Finding.Breach (breach_of (option_copied left.entry)) }
{
    match breach_of(left) {
        Some(breach) => Some(Finding::Breach(breach)),
        None => None,
    }
}

fn refusal_finding(left: Option<&str>) -> Option<Finding>
    ensures { result ≡ option_map Finding.Script (script_finding (option_copied left.entry)) }
{
    match script_finding(left) {
        Some(refusal) => Some(Finding::Script(refusal)),
        None => None,
    }
}

/// Whether a line is the first one that a report has of a task.
#[tactic(auto, unfolding(crate::specs::Findings::is_task))]
pub(crate) fn is_task(line: &str) -> bool
    ensures { result ≡ is_task line.now }
{
    let (word, _) = next_field(Some(line));
    word == "upload" || word == "sync" || word == "compact:" || word == "clean:" || word == "query"
}

/// What a line that begins with this word says behind the name of the task, or of the block that was checked.
#[tactic(auto, unfolding(crate::specs::Findings::behind_name))]
fn behind_name<'a>(word: &str, left: Option<&'a str>) -> Option<&'a str>
    ensures { option_copied result ≡ behind_name word.now (option_copied left.entry) }
{
    if word == "compact:" || word == "clean:" {
        return left;
    }
    let (_, behind) = next_field(left);
    if word == "query" {
        let (_, name) = next_field(behind);
        let (_, end) = next_field(name);
        return end;
    }
    if word == "upload" || word == "sync" || word == "check" {
        return behind;
    }
    None
}

/// The failure that these two words tell.
#[tactic(auto, unfolding(crate::specs::Findings::finding_of_words))]
fn finding_of_words(word: &str, next: &str) -> Option<Finding>
    ensures { result ≡ finding_of_words word.now next.now }
{
    if word == "no" && next == "view" {
        return Some(Finding::NoView);
    }
    if word == "too" {
        return Some(if next == "large" {
            Finding::TooLarge
        } else {
            Finding::TooMany
        });
    }
    match read_unsigned(next) {
        Ok(number) => numbered_finding(word, number),
        Err(_) => None,
    }
}

/// The failure with this number that a word tells.
#[tactic(auto, unfolding(crate::specs::Findings::numbered_finding))]
fn numbered_finding(word: &str, number: u64) -> Option<Finding>
    ensures { result ≡ numbered_finding word.now number }
{
    if word == "fault" {
        Some(Finding::Fault(number))
    } else if word == "missing" {
        Some(Finding::Missing(number))
    } else if word == "damaged" {
        Some(Finding::Damaged(number))
    } else if word == "refused" {
        Some(Finding::Refused(number))
    } else {
        None
    }
}

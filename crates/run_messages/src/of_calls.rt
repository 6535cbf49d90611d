//! The messages on a call, from the failures that its report tells of, the text of its script and its journal.

ghost use Rattle.std.specs.Prelude.{◌≡◌, ◌++◌, IfOk, List, OnOk};
ghost use Rattle.run_messages.specs.declared.told.Told.{Told};
ghost use Rattle.run_messages.specs.Calls.{AreCallMessages, IsScriptFor, is_breach, rules_words, tells_breach, tells_of_rules};

use crate::finding::Finding;
use crate::rule_conflicts::put_conflict_of;
use crate::script_finding::ScriptFinding;
use crate::script_lines::task_lines;
use crate::telling::{first_of, put_messages};
use crate::told::{Told, ToldList};
use base::NoMemory;
use script_core::Script;
use std::alloc::Global;
use world_core::Entry;

/// The messages on failures that a report tells of. It goes over the whole script, so ask for it where there are failures.
pub fn messages(
    alloc: Global,
    told: &ToldList,
    script: &[u8],
    journal: &[Entry],
) -> Result<Vec<u8>, NoMemory>
    ensures { IfOk result
        (λ text. AreCallMessages told.now script.now journal.now text.items) }
{
    let mut out = Vec::new(alloc);
    let lines = task_lines(alloc, script)?;
    let read = script_for(alloc, first_of(told.members()), script);
    put_messages(&mut out, told.members(), &lines, read.as_ref(), journal)?;
    put_rules(&mut out, alloc, told.members(), script)?;
    Ok(out)
}

/// The script in which the line of a breach is looked up, where some failure is one and the script can be read.
fn script_for(alloc: Global, told: &[Told], text: &[u8]) -> Option<Script>
    ensures { IsScriptFor told.now text.now result }
{
    if tells_breach(told) {
        script_of(alloc, text)
    } else {
        None
    }
}

fn script_of(alloc: Global, text: &[u8]) -> Option<Script>
    ensures { (told : List Told) → IsScriptFor told text.now result }
{
    match Script::read(alloc, text) {
        Ok(script) => Some(script),
        Err(refusal) => {
            drop(refusal);
            None
        }
    }
}

/// Whether some failure is a breach.
fn tells_breach(told: &[Told]) -> bool
    ensures { result ≡ tells_breach told.now }
{
    match told {
        [] => false,
        [first, others @ ..] => is_breach(first.finding) || tells_breach(others),
    }
}

fn is_breach(finding: Finding) -> bool
    ensures { result ≡ is_breach finding }
{
    matches!(finding, Finding::Breach(_))
}

/// Appends which rules disagree, where the first failure is that some do.
fn put_rules(out: &mut Vec<u8>, alloc: Global, told: &[Told], script: &[u8]) -> Result<(), NoMemory>
    ensures { OnOk result (out.new.items ≡ out.old.items ++ rules_words told.now script.now) }
{
    if tells_of_rules(told) {
        put_conflict_of(out, alloc, script)
    } else {
        Ok(())
    }
}

/// Whether the first failure is that the rules of the script disagree.
fn tells_of_rules(told: &[Told]) -> bool
    ensures { result ≡ tells_of_rules told.now }
{
    match told {
        [first, ..] => first.finding == Finding::Script(ScriptFinding::BadRules),
        [] => false,
    }
}

//! Which two rules of a script disagree, where it is refused for that.

ghost use Rattle.std.specs.Prelude.{◌≡◌, ◌+◌, ◌++◌, ◌↔◌, [], IsTrue, OnOk, nat_lt, option_copied};
ghost use Rattle.script_fields.specs.Fields.{lines_of};
ghost use Rattle.script_fields.specs.Values.{agree};
ghost use Rattle.moment_core.specs.Limits.{one_second};
ghost use Rattle.moment_core.specs.StandardRules.{standard_rules};
ghost use Rattle.run_messages.specs.RuleConflicts.{conflict_words, is_phase, is_rule, pair_words, rules_by, with_line, with_rule};

use crate::pieces::put_text;
use crate::script_lines::kind_of;
use crate::told::spoken;
use base::{NoMemory, put_unsigned};
use moment_core::{Rules, SECOND};
use script_fields::{LineKind, RuleKind, cut_line, next_field};
use std::alloc::Global;

/// Appends a line on two rules of a script that disagree, as its lines set them before its first phase.
pub(crate) fn put_conflict_of(
    out: &mut Vec<u8>,
    alloc: Global,
    script: &[u8],
) -> Result<(), NoMemory>
    ensures { OnOk result (out.new.items ≡ out.old.items
        ++ conflict_words (rules_by standard_rules (lines_of script.now))) }
{
    let mut rules = Rules::standard(alloc);
    read_rules(&mut rules, script);
    put_conflict(out, &rules)
}

/// Sets what the lines of a script set before its first phase.
fn read_rules(rules: &mut Rules, script: &[u8])
    ensures { rules.new ≡ rules_by rules.old (lines_of script.now) }
{
    let mut left = script;
    while !left.is_empty() {
        let (line, rest) = cut_line(left);
        if is_phase(kind_of(line)) {
            return;
        }
        read_line(rules, line);
        left = rest;
    }
}

/// Sets what a line sets.
#[tactic(auto, unfolding(crate::specs::RuleConflicts::with_line))]
fn read_line(rules: &mut Rules, line: &[u8])
    ensures { rules.new ≡ with_line rules.old line.now }
{
    if is_rule(kind_of(line)) {
        let (_, fields) = next_field(spoken(line));
        read_rule(rules, fields);
    }
}

/// Sets the rule that a rule line names behind its word. A value that is none changes nothing.
#[tactic(auto, unfolding(crate::specs::RuleConflicts::with_rule))]
fn read_rule(rules: &mut Rules, fields: Option<&str>)
    ensures { rules.new ≡ with_rule rules.old (option_copied fields.entry) }
{
    let (name, left) = next_field(fields);
    let (value, _) = next_field(left);
    if let Some(RuleKind::Valued(name)) = RuleKind::of_word(name) {
        let _ = name.set(rules, value);
    }
}

fn is_rule(kind: Option<LineKind>) -> bool
    ensures { result ≡ is_rule kind }
{
    match kind {
        Some(LineKind::Rule) => true,
        _ => false,
    }
}

fn is_phase(kind: Option<LineKind>) -> bool
    ensures { result ≡ is_phase kind }
{
    match kind {
        Some(LineKind::At) => true,
        _ => false,
    }
}

/// Appends a line on two rules that disagree, or nothing where all agree.
#[tactic(auto, using(crate::proofs::Conflicts::named_where), unfolding(crate::specs::RuleConflicts::conflict_words))]
fn put_conflict(out: &mut Vec<u8>, rules: &Rules) -> Result<(), NoMemory>
    ensures text { OnOk result (out.new.items ≡ out.old.items ++ conflict_words rules.now) }
    ensures silent { (conflict_words rules.now ≡ []) ↔ IsTrue (agree rules.now) }
{
    let upload = rules.upload.ms;
    let partial = rules.partial.ms;
    let delete = rules.delete.ms;
    let ignore = rules.ignore.ms;
    if partial < upload {
        put_pair(out, "upload-limit", upload, "partial-delay", partial)
    } else if is_late(upload, delete) {
        put_pair(out, "upload-limit", upload, "delete-delay", delete)
    } else if delete < ignore {
        put_pair(out, "ignore-delay", ignore, "delete-delay", delete)
    } else {
        Ok(())
    }
}

/// Whether an upload may end later than a second before a deletion.
fn is_late(upload: u64, delete: u64) -> bool
    ensures { result ≡ nat_lt delete (upload + one_second) }
{
    delete < upload || delete - upload < SECOND
}

#[tactic(auto, unfolding(crate::specs::RuleConflicts::pair_words))]
fn put_pair(
    out: &mut Vec<u8>,
    first: &str,
    ms: u64,
    second: &str,
    allowed: u64,
) -> Result<(), NoMemory>
    ensures { OnOk result
        (out.new.items ≡ out.old.items ++ pair_words first.now ms second.now allowed) }
{
    put_text(out, "The rule ")?;
    put_text(out, first)?;
    put_text(out, " is ")?;
    put_unsigned(out, ms)?;
    put_text(out, " ms, and ")?;
    put_text(out, second)?;
    put_text(out, " is ")?;
    put_unsigned(out, allowed)?;
    put_text(out, " ms.\n")
}

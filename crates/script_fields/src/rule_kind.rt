//! Rule lines. Most set a value in place of the one before; a replica label is one more, and a retention of no time is
//! none.

ghost use Rattle.std.specs.Prelude.{◌≡◌, OnErr};
ghost use Rattle.base.specs.Reading.{Answers, Gives};
ghost use Rattle.script_fields.specs.declared.line_refusal.LineRefusal.TheVariants as line_refusals;
ghost use Rattle.script_fields.specs.LineRefusals.{bad};
ghost use Rattle.script_fields.specs.Values.{add_replica, apply_rule, set_retention};

use crate::LineCause;
use crate::line_refusal::LineRefusal;
use crate::rule_name::RuleName;
use crate::values::span;
use label_sets::{Text, is_name};
use moment_core::Rules;
use std::alloc::Global;

/// What a rule line says, by the rule's name.
#[derive(Clone, Copy, Debug, PartialEq, Eq)]
pub enum RuleKind {
    /// The value of a rule, in place of the one before it.
    Valued(RuleName),
    /// One more replica label.
    ReplicaLabel,
    /// How long blocks are kept, or that they are kept for ever.
    Retention,
}

impl RuleKind {
    ghost use Rattle.std.specs.Prelude.{◌≡◌, OnErr};
    ghost use Rattle.script_fields.specs.Fields.{rule_kind};

    /// The kind of the rule that has this name, if there is one.
    pub fn of_word(word: &str) -> Option<RuleKind>
        ensures { result ≡ rule_kind word.now }
    {
        match word {
            "replica-label" => Some(RuleKind::ReplicaLabel),
            "retention" => Some(RuleKind::Retention),
            _ => Some(RuleKind::Valued(RuleName::of_word(word)?)),
        }
    }

    /// The rules take what a line of this kind says by the text of its value.
    pub fn apply(self, rules: &mut Rules, alloc: Global, text: &str) -> Result<(), LineRefusal>
        ensures gives { Gives line_refusals.NoMemory (λ _. rules.new) result
            (bad (apply_rule self text.now rules.old)) }
        ensures kept { OnErr result (rules.new ≡ rules.old) }
    {
        match self {
            RuleKind::Valued(name) => Ok(name.set(rules, text)?),
            RuleKind::ReplicaLabel => add_replica(rules, alloc, text),
            RuleKind::Retention => Ok(set_retention(rules, text)?),
        }
    }
}

#[tactic(auto, unfolding(crate::specs::Values::add_replica))]
fn add_replica(rules: &mut Rules, alloc: Global, name: &str) -> Result<(), LineRefusal>
    ensures gives { Gives line_refusals.NoMemory (λ _. rules.new) result
        (bad (add_replica name.now rules.old)) }
    ensures kept { OnErr result (rules.new ≡ rules.old) }
{
    LineCause::BadName.unless(is_name(name))?;
    rules.replicas.push(Text::from_str(alloc, name)?)?;
    Ok(())
}

/// A retention of no time sets none.
#[tactic(auto, unfolding(crate::specs::Values::set_retention))]
fn set_retention(rules: &mut Rules, text: &str) -> Result<(), LineCause>
    ensures gives { Answers (λ _. rules.new) result (set_retention text.now rules.old) }
    ensures kept { OnErr result (rules.new ≡ rules.old) }
{
    let retention = span(text)?;
    rules.retention = if retention.ms == 0 {
        None
    } else {
        Some(retention)
    };
    Ok(())
}

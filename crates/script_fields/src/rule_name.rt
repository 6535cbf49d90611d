use crate::LineCause;
use crate::values::{page_limit, span, tick};
use moment_core::Rules;

/// A rule of one value, by its name in a line.
#[derive(Clone, Copy, Debug, PartialEq, Eq)]
pub enum RuleName {
    Consistency,
    Ignore,
    Delete,
    Partial,
    Upload,
    Tick,
    PageLimit,
}

impl RuleName {
    ghost use Rattle.std.specs.Prelude.{◌≡◌, OnErr};
    ghost use Rattle.base.specs.Reading.{Answers};
    ghost use Rattle.script_fields.specs.Fields.{rule_name};
    ghost use Rattle.script_fields.specs.Values.{set_rule};

    /// The rule of one value that has this name, if there is one.
    pub fn of_word(word: &str) -> Option<RuleName>
        ensures { result ≡ rule_name word.now }
    {
        match word {
            "consistency-delay" => Some(RuleName::Consistency),
            "ignore-delay" => Some(RuleName::Ignore),
            "delete-delay" => Some(RuleName::Delete),
            "partial-delay" => Some(RuleName::Partial),
            "upload-limit" => Some(RuleName::Upload),
            "tick" => Some(RuleName::Tick),
            "page-limit" => Some(RuleName::PageLimit),
            _ => None,
        }
    }
    /// The rule takes the value that a text says, in place of what was set before.
    #[tactic(auto, unfolding(crate::specs::Values::value_field, crate::specs::Values::set_rule))]
    pub fn set(self, rules: &mut Rules, text: &str) -> Result<(), LineCause>
        ensures gives { Answers (λ _. rules.new) result (set_rule self text.now rules.old) }
        ensures kept { OnErr result (rules.new ≡ rules.old) }
    {
        match self {
            RuleName::Consistency => rules.consistency = span(text)?,
            RuleName::Ignore => rules.ignore = span(text)?,
            RuleName::Delete => rules.delete = span(text)?,
            RuleName::Partial => rules.partial = span(text)?,
            RuleName::Upload => rules.upload = span(text)?,
            RuleName::Tick => rules.tick = tick(text)?,
            RuleName::PageLimit => rules.page_limit = page_limit(text)?,
        }
        Ok(())
    }
}

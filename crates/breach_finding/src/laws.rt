//! Laws of breaches.
ghost use Rattle.std.specs.Prelude.{◌≡◌, ℕ, List, Option, None, Some};
ghost use Rattle.world_core.specs.Worlds.{IsJournal};
ghost use Rattle.world_core.specs.declared.entry.Entry.{Entry};
ghost use Rattle.script_core.specs.Lawful.{IsLawfulScript};
ghost use Rattle.lifecycle_core.specs.Breaches.{IsBreach, IsUnbroken, Rule};
ghost use Rattle.lifecycle_core.specs.Setting.{Setting};
ghost use Rattle.breach_finding.specs.Walks.{IsAnswer, rule_of};
ghost use Rattle.breach_finding.specs.declared.found.Breach.{Breach};

/// A law: of a journal there is one answer. Where it has a breach, the answer is that breach, and where no rule refuses an
/// entry, there is none.
pub fn answers_are_one()
    ensures one { (setting : Setting) (tick : ℕ) (journal : List Entry)
        → IsLawfulScript setting.script
        → IsJournal tick journal → (one other : Option Breach) → IsAnswer setting journal one
        → IsAnswer setting journal other → one ≡ other }
    ensures breach { (setting : Setting) (journal : List Entry) (rule : Rule) (number x y : ℕ)
        (answer : Option Breach) → IsBreach setting journal rule number x y
        → IsAnswer setting journal answer
        → (found : Breach) × (answer ≡ Some found) × (rule ≡ rule_of found.rule)
        × (number ≡ found.entry) }
    ensures none { (setting : Setting) (journal : List Entry) (answer : Option Breach)
        → IsUnbroken setting journal → IsAnswer setting journal answer → answer ≡ None }
{}

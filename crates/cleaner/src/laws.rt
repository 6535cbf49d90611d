//! Laws of cleanings.
ghost use Rattle.std.specs.Prelude.{◌≡◌, List, ◌∷◌, ◌++◌, Option, Some};
ghost use Rattle.moment_core.specs.declared.rules.Rules.{Rules};
ghost use Rattle.world_core.specs.declared.entry.Entry.{Entry};
ghost use Rattle.cleaner.specs.Cleanings.{CleanRun};
ghost use Rattle.cleaner.specs.declared.clean.CleanEnd.{CleanEnd};

/// A law: the entries of a cleaning tell its end. And as long as they tell the same of two cleanings by the same rules, both ask
/// for the same operation next.
pub fn cleanings_have_one_end()
    ensures end { (rules : Rules) (entries : List Entry) (one other : CleanEnd)
        → CleanRun rules entries (Some one) → CleanRun rules entries (Some other) → one ≡ other }
    ensures asks { (rules : Rules) (made : List Entry) (e f : Entry) (rest others : List Entry)
        (one other : Option CleanEnd)
        → CleanRun rules (made ++ e ∷ rest) one → CleanRun rules (made ++ f ∷ others) other
        → e.op ≡ f.op }
{}

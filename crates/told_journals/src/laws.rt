//! Laws on journals that are taken at their word.

ghost use Rattle.std.specs.Prelude.{◌≡◌, ℕ, List};
ghost use Rattle.world_core.specs.declared.entry.Entry.{Entry};
ghost use Rattle.lifecycle_core.specs.Phases.{IsFinished, IsRunOf};
ghost use Rattle.lifecycle_core.specs.Setting.{Setting};
ghost use Rattle.lifecycle_core.specs.Tasks.{End};
ghost use Rattle.told_journals.specs.Told.{IsFirstRefused, IsTold, IsToldRun};

/// A law: a journal that is taken at its word is lawful, and is told by one account alone.
pub fn told_journals_are_lawful()
    ensures run { (setting : Setting) (journal : List Entry) (ends : List (List (List End)))
        → IsToldRun setting journal ends → IsRunOf setting journal ends }
    ensures once { (setting : Setting) (journal : List Entry)
        (one other : List (List (List End))) → IsToldRun setting journal one
        → IsToldRun setting journal other → one ≡ other }
{}

/// A law: a run in which every task came to its end is taken at its word.
pub fn finished_runs_are_told()
    ensures { (setting : Setting) (journal : List Entry) (ends : List (List (List End)))
        → IsRunOf setting journal ends → IsFinished setting ends
        → IsToldRun setting journal ends }
{}

/// A law: of a journal there is one first refused number at most, and none where it is that of a finished run.
pub fn first_refusals_are_one()
    ensures once { (setting : Setting) (journal : List Entry) (one other : ℕ)
        → IsFirstRefused setting journal one → IsFirstRefused setting journal other
        → one ≡ other }
    ensures none { (setting : Setting) (journal : List Entry) (ends : List (List (List End)))
        (number : ℕ) → IsRunOf setting journal ends → IsFinished setting ends
        → ¬ IsFirstRefused setting journal number }
{}

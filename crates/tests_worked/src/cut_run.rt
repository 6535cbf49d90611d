ghost use Rattle.std.specs.Prelude.{◌≡◌, List};
ghost use Rattle.lifecycle_core.specs.Cuts.{IsCutBehind};
ghost use Rattle.lifecycle_core.specs.Phases.{IsFinished, IsRunOf};
ghost use Rattle.lifecycle_core.specs.Tasks.{End};
ghost use Rattle.script_workers.specs.declared.phase.Phase.{Phase};
ghost use Rattle.tests_worked.specs.CutRun.{done, journal, told};
ghost use Rattle.tests_worked.specs.OneBlock.{setting};

/// A law: a run that was broken off in its second phase was broken off behind the first one, and behind no other; and no run of the
/// script that left this journal was finished.
pub fn cut_run_has_one_cut()
    ensures cut { IsCutBehind setting journal done told }
    ensures only { (also : List Phase) (other : List (List (List End)))
        → IsCutBehind setting journal also other → (also ≡ done) × (other ≡ told) }
    ensures unfinished { (ends : List (List (List End))) → IsRunOf setting journal ends
        → ¬ IsFinished setting ends }
{}

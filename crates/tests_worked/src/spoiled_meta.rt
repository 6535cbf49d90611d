ghost use Rattle.lifecycle_core.specs.Breaches.{IsBreach, honesty};
ghost use Rattle.lifecycle_core.specs.Phases.{IsFinished, IsRunOf};
ghost use Rattle.tests_worked.specs.OneBlock.{setting};
ghost use Rattle.tests_worked.specs.SpoiledMeta.{ends, journal};

/// A law: a sync that is shown no meta ends there, and the query after it has no view.
pub fn spoiled_meta_gives_no_view()
    ensures run { IsRunOf setting journal ends }
    ensures finished { IsFinished setting ends }
{}

/// A law: that read is the breach. It shows an `x`, and a `{` is owed.
pub fn spoiled_meta_is_the_breach()
    ensures { IsBreach setting journal honesty 9 120 123 }
{}

ghost use Rattle.lifecycle_core.specs.Causes.{AreUndamaged, AreWell};
ghost use Rattle.lifecycle_core.specs.Phases.{IsRunOf};
ghost use Rattle.tests_worked.specs.OneBlock.{setting};
ghost use Rattle.tests_worked.specs.OtherReads.{failed, failed_ends, spoiled, spoiled_ends};
ghost use Rattle.world_core.specs.Standing.{IsHonest};

/// A law: where the bucket shows another index than was put, a run finds it damaged.
pub fn spoiled_index_is_damaged()
    ensures run { IsRunOf setting spoiled spoiled_ends }
    ensures damaged { ¬ AreUndamaged spoiled_ends }
{}

/// A law: where a call fails, a run does not end well, however honest the bucket.
pub fn failed_read_ends_no_query()
    ensures run { IsRunOf setting failed failed_ends }
    ensures honest { IsHonest failed }
    ensures unwell { ¬ AreWell failed_ends }
{}

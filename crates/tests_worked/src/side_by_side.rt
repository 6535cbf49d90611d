ghost use Rattle.lifecycle_core.specs.Guarantees.{IsGiven};
ghost use Rattle.lifecycle_core.specs.Phases.{IsRunOf};
ghost use Rattle.tests_worked.specs.SideBySide.{NamesEarlyUploads, NamesLateUploads, setting, journal, ends, asked};
ghost use Rattle.world_core.specs.Standing.{IsHonest};

/// A law: while a gateway syncs, other workers of the phase upload two blocks, and its query answers one of them.
pub fn side_by_side_runs()
    ensures run { IsRunOf setting journal ends }
    ensures honest { IsHonest journal }
    ensures given { IsGiven setting ends asked }
{}

/// A law: the block that the answer names was not yet complete when the sync began.
pub fn named_block_was_completed_during_the_sync()
    ensures { ¬ NamesEarlyUploads }
{}

/// A law: the other block was complete before the sync ended, and the answer leaves it out.
pub fn block_completed_during_the_sync_is_left_out()
    ensures { ¬ NamesLateUploads }
{}

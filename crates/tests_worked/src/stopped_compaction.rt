ghost use Rattle.std.specs.Prelude.{ℕ};
ghost use Rattle.block_meta.specs.MetaFields.{MetaFields};
ghost use Rattle.world_core.specs.Standing.{IsHonest};
ghost use Rattle.lifecycle_core.specs.Completed.{IsCompletedAt};
ghost use Rattle.lifecycle_core.specs.Decisions.{DecidesToDelete};
ghost use Rattle.lifecycle_core.specs.Phases.{IsFinished, IsRunOf};
ghost use Rattle.tests_worked.specs.CompactedPair.{n};
ghost use Rattle.tests_worked.specs.StoppedCompaction.{ends, journal, no_meta, setting, until_no_meta};

/// A law: a compaction is stopped before it puts the new block's meta, and a cleaning deletes two days later what it had put.
pub fn stopped_compaction_is_cleaned()
    ensures run { IsRunOf setting journal ends }
    ensures finished { IsFinished setting ends }
    ensures honest { IsHonest journal }
{}

/// A law: what it had put is a partial: the block is complete at no entry, and the cleaning decides where it finds no meta.
pub fn stopped_output_is_a_partial()
    ensures incomplete { (seq : ℕ) (meta : MetaFields) → ¬ IsCompletedAt journal n seq meta }
    ensures decides { DecidesToDelete setting until_no_meta no_meta n }
{}

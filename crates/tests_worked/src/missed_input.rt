ghost use Rattle.block_keys.specs.declared.key.Key.TheVariants as key;
ghost use Rattle.lifecycle_core.specs.Breaches.{IsLie, mark_time, read_time, watched};
ghost use Rattle.lifecycle_core.specs.Causes.{IsBlamedInCompaction, IsExplainedBy};
ghost use Rattle.lifecycle_core.specs.Phases.{IsFinished, IsRunOf};
ghost use Rattle.tests_worked.specs.CompactedPair.{mark_put};
ghost use Rattle.tests_worked.specs.Entries.{absent};
ghost use Rattle.tests_worked.specs.MissedInput.{ends, front, journal, missed, setting};
ghost use Rattle.tests_worked.specs.SmallBlock.{a};

/// A law: a compaction says that an index is missing which stands. That reply is the lie by which the journal explains the miss.
pub fn missed_input_is_explained()
    ensures run { IsRunOf setting journal ends }
    ensures finished { IsFinished setting ends }
    ensures lie { IsLie front missed 65 70 }
    ensures explained { IsExplainedBy setting (watched setting journal) IsBlamedInCompaction
        journal 16 }
{}

/// A law: a mark is not to blame for what a compaction misses, nor is what was read late at another seat.
pub fn others_are_not_to_blame()
    ensures mark { ¬ IsBlamedInCompaction missed a mark_time mark_put }
    ensures read { ¬ IsBlamedInCompaction missed a read_time (absent 12 4 1_800_002 (key.Mark a)) }
{}

ghost use Rattle.std.specs.Prelude.{◌≡◌, []};
ghost use Rattle.block_keys.specs.declared.key.Key.TheVariants as key;
ghost use Rattle.world_core.specs.Worlds.{failed_count};
ghost use Rattle.lifecycle_core.specs.Breaches.{IsBreach, honesty, upload_time, mark_time, sync_time, view_time, read_time};
ghost use Rattle.lifecycle_core.specs.Causes.{AreWell, IsBlamed, IsExplained};
ghost use Rattle.lifecycle_core.specs.Guarantees.{IsGuaranteed};
ghost use Rattle.lifecycle_core.specs.Phases.{IsFinished, IsRunOf};
ghost use Rattle.tests_worked.specs.Entries.{stored};
ghost use Rattle.tests_worked.specs.LostIndex.{journal, ends, lost};
ghost use Rattle.tests_worked.specs.OneBlock.{setting};
ghost use Rattle.tests_worked.specs.OneStrict.{last_read};
ghost use Rattle.tests_worked.specs.SmallBlock.{a};

/// A law: a gateway says that the object at entry 10 is missing, in a lawful journal in which no call failed.
pub fn lost_index_runs()
    ensures run { IsRunOf setting journal ends }
    ensures finished { IsFinished setting ends }
    ensures calm { failed_count journal ≡ 0 }
{}

/// A law: that entry is the first one that breaks a rule. It shows `A`, for absent, and owes `F`, for found.
pub fn lost_index_is_the_breach()
    ensures { IsBreach setting journal honesty 10 65 70 }
{}

/// A law: so the journal explains the missing object, and all that is guaranteed of the run holds.
pub fn lost_index_is_explained()
    ensures explained { IsExplained setting journal 10 }
    ensures guaranteed { IsGuaranteed setting journal ends }
{}

/// A law: not every task ended well then. The lie is the only cause: no entry breaks another rule. And what another block was put
/// or marked with, a sync, and another read are not to blame.
pub fn lost_index_has_no_other_cause()
    ensures unwell { ¬ AreWell ends }
    ensures lie { (cause : IsExplained setting journal 10) → cause.rule ≡ honesty }
    ensures other_put { ¬ IsBlamed lost a upload_time (stored 2 1 1 (key.Index 11) []) }
    ensures other_mark { ¬ IsBlamed lost a mark_time (stored 2 1 1 (key.Mark 11) []) }
    ensures no_sync { ¬ IsBlamed lost a sync_time lost }
    ensures other_read { ¬ IsBlamed lost a view_time last_read }
    ensures no_compaction { ¬ IsBlamed lost a read_time lost }
{}

ghost use Rattle.std.specs.Prelude.{◌≡◌, ℕ};
ghost use Rattle.world_core.specs.Standing.{IsHonest};
ghost use Rattle.lifecycle_core.specs.Breaches.{IsBreach, mark_time, view_time};
ghost use Rattle.lifecycle_core.specs.Causes.{IsExplained};
ghost use Rattle.lifecycle_core.specs.Completed.{IsSettled};
ghost use Rattle.lifecycle_core.specs.Decisions.{DecidesToDelete};
ghost use Rattle.lifecycle_core.specs.Guarantees.{LeavesNoneOut};
ghost use Rattle.lifecycle_core.specs.Marked.{IsFirstMark, IsMarkedFor};
ghost use Rattle.lifecycle_core.specs.Phases.{IsFinished, IsRunOf};
ghost use Rattle.lifecycle_core.specs.Tasks.{sync_rules};
ghost use Rattle.tests_worked.specs.ExpiredBlock.{ends, hasty, hasty_ends, hasty_journal, journal, mark_read, nothing_answered, put, setting, until_put, until_read, used};
ghost use Rattle.tests_worked.specs.SmallBlock.{a};

/// A law: a block that expired is marked by a compaction and deleted by a cleaning; and a query over a view that still keeps it
/// misses its index, in an honest journal.
pub fn expired_block_is_deleted()
    ensures run { IsRunOf setting journal ends }
    ensures finished { IsFinished setting ends }
    ensures honest { IsHonest journal }
{}

/// A law: the mark is the block's first one. It was put because the block had expired when the look before it found no mark; and the
/// cleaning decides by its read of the mark.
pub fn expired_block_is_marked()
    ensures first { IsFirstMark a 1_860 until_put put }
    ensures cause { IsMarkedFor setting journal a 1_860 put }
    ensures decides { DecidesToDelete setting until_read mark_read a }
{}

/// A law: the query's read breaks the rule on views: it comes 48 hours and more after the view's sync began. That, and nothing else,
/// explains the missing object.
pub fn late_query_is_the_breach()
    ensures breach { IsBreach setting journal view_time 25 266_400_101 174_600_001 }
    ensures explained { IsExplained setting journal 25 }
    ensures only { (cause : IsExplained setting journal 25) → cause.rule ≡ view_time }
{}

/// A law: an upload that had expired before a sync began is not settled, so an answer over its view that names no block leaves none
/// out.
pub fn expired_block_is_not_settled()
    ensures unsettled { (ulid : ℕ)
        → ¬ IsSettled setting journal (sync_rules setting 0) used ulid }
    ensures covered { LeavesNoneOut setting journal nothing_answered }
{}

/// A law: where a mark has to land within four milliseconds of the second that it tells, this one lands too late.
pub fn late_mark_is_the_breach()
    ensures run { IsRunOf hasty hasty_journal hasty_ends }
    ensures finished { IsFinished hasty hasty_ends }
    ensures breach { IsBreach hasty hasty_journal mark_time 15 1_860_005 1_860_004 }
{}

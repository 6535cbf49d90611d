ghost use Rattle.std.specs.Prelude.{◌≡◌};
ghost use Rattle.world_core.specs.Standing.{IsHonest};
ghost use Rattle.script_core.specs.Lawful.{IsLawfulScript};
ghost use Rattle.lifecycle_core.specs.Breaches.{IsBreach, read_time, watched};
ghost use Rattle.lifecycle_core.specs.Causes.{IsBlamedInCompaction, IsExplainedBy};
ghost use Rattle.lifecycle_core.specs.Phases.{IsFinished, IsRunOf};
ghost use Rattle.tests_worked.specs.LateCompaction.{ends, journal, script, setting};

/// A law: a compaction misses the index of a block that a cleaning beside it deletes, in an honest journal of a lawful script.
pub fn late_compaction_misses_an_input()
    ensures lawful { IsLawfulScript script }
    ensures run { IsRunOf setting journal ends }
    ensures finished { IsFinished setting ends }
    ensures honest { IsHonest journal }
{}

/// A law: the compaction's last read breaks the rule on its reads: it comes more than half the delete delay after the compaction's
/// first entry. That, and nothing else, explains the missing object.
pub fn late_compaction_is_the_breach()
    ensures breach { IsBreach setting journal read_time 35 32_900 22_900 }
    ensures explained { IsExplainedBy setting (watched setting journal) IsBlamedInCompaction
        journal 35 }
    ensures only { (cause : IsExplainedBy setting (watched setting journal) IsBlamedInCompaction
        journal 35) → cause.rule ≡ read_time }
{}

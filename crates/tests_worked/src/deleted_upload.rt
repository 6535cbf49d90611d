ghost use Rattle.std.specs.Prelude.{◌≡◌};
ghost use Rattle.world_core.specs.Standing.{IsHonest};
ghost use Rattle.lifecycle_core.specs.Breaches.{IsBreach, upload_time};
ghost use Rattle.lifecycle_core.specs.Causes.{IsExplained};
ghost use Rattle.lifecycle_core.specs.Phases.{IsFinished, IsRunOf};
ghost use Rattle.tests_worked.specs.DeletedUpload.{ends, journal, setting};

/// A law: a cleaning deletes the data of a block while it is uploaded past its limit. So the block is complete, and a query misses
/// its index, in an honest journal.
pub fn deleted_upload_is_missed()
    ensures run { IsRunOf setting journal ends }
    ensures finished { IsFinished setting ends }
    ensures honest { IsHonest journal }
{}

/// A law: the first late put is the breach. What explains the missing object is a late put of the upload, and nothing else.
pub fn late_put_is_the_breach()
    ensures breach { IsBreach setting journal upload_time 3 1_800_002 1_800_000 }
    ensures explained { IsExplained setting journal 19 }
    ensures only { (cause : IsExplained setting journal 19) → cause.rule ≡ upload_time }
{}

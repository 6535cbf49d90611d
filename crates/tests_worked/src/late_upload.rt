ghost use Rattle.lifecycle_core.specs.Breaches.{IsBreach, upload_time};
ghost use Rattle.lifecycle_core.specs.Phases.{IsRunOf};
ghost use Rattle.tests_worked.specs.LateUpload.{setting, journal, ends};

/// A law: the block is uploaded all the same, and the journal is lawful.
pub fn late_upload_runs()
    ensures { IsRunOf setting journal ends }
{}

/// A law: the first put breaks the rule on uploads: it comes at 1,800,002 ms, and at most 1,800,000 were allowed.
pub fn late_upload_is_the_breach()
    ensures { IsBreach setting journal upload_time 3 1_800_002 1_800_000 }
{}

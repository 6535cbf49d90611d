//! Laws on a run that is written out entry by entry: a block is uploaded, synced and asked for. The definitions are
//! tried on it: they have to take this journal as a run, and this report as what may be said of it.

ghost use Rattle.std.specs.Prelude.{◌≡◌, ℕ, List, All, Bool, true};
ghost use Rattle.world_core.specs.Standing.{IsHonest};
ghost use Rattle.script_core.specs.Lawful.{IsLawfulScript};
ghost use Rattle.script_core.specs.Spelling.{Spells};
ghost use Rattle.lifecycle_core.specs.Breaches.{IsUnbroken};
ghost use Rattle.lifecycle_core.specs.Completed.{IsSettled};
ghost use Rattle.lifecycle_core.specs.Guarantees.{IsExact, IsGiven, IsGuaranteed, LeavesNoneOut, NamesUploads};
ghost use Rattle.lifecycle_core.specs.Phases.{IsFinished, IsRunOf};
ghost use Rattle.lifecycle_core.specs.Shipped.{IsShipped};
ghost use Rattle.lifecycle_core.specs.SyncsAndCalls.{IsViewOf};
ghost use Rattle.lifecycle_core.specs.Tasks.{sync_rules};
ghost use Rattle.lifecycle_core.specs.TimeRules.{IsMarkedInTime, IsReadInTime, IsSyncedInTime, IsUploadedInTime};
ghost use Rattle.call_verdicts.specs.Shippable.{RefusesNone};
ghost use Rattle.call_verdicts.specs.Verdicts.{IsReport, IsWholeRun};
ghost use Rattle.tests_worked.specs.OneBlock.{text, setting, script, journal, ends, report, sync, query, used, asked};
ghost use Rattle.tests_worked.specs.SmallBlock.{a, block, meta, objects_with};

/// A law: the script is what its text spells, and lawful.
pub fn one_block_is_spelled()
    ensures spelled { Spells text script }
    ensures lawful { IsLawfulScript script }
{}

/// A law: these objects are those with which the block is shipped: the files that are built of its series, and its meta. So the script
/// has no block that is refused.
pub fn one_block_is_shipped()
    ensures shipped { IsShipped setting block (objects_with a meta) }
    ensures none_refused { RefusesNone setting }
{}

/// A law: the journal is that of a run of the script that comes to these ends.
pub fn one_block_runs()
    ensures { IsRunOf setting journal ends }
{}

/// A law: the bucket gave back what was put.
pub fn one_block_is_honest()
    ensures { IsHonest journal }
{}

/// A law: all is done, and what is printed says so. Nothing else may be printed.
pub fn one_block_is_reported()
    ensures finished { IsFinished setting ends }
    ensures report { IsReport script script.phases ends true report }
    ensures only { (as_asked : Bool) (other : List ℕ)
        → IsReport script script.phases ends as_asked other → other ≡ report }
    ensures whole { IsWholeRun setting true report journal }
{}

/// A law: the query's answer is the run's, it is exact, and it names a complete upload, as it has to.
pub fn one_block_is_answered()
    ensures given { IsGiven setting ends asked }
    ensures exact { IsExact setting asked }
    ensures named { NamesUploads setting journal asked }
    ensures settled { IsSettled setting journal (sync_rules setting 0) used a }
{}

/// A law: the run keeps the rules of time, so that its query may leave no block out, and it leaves none out.
pub fn one_block_is_in_time()
    ensures uploaded { (ulid : ℕ) → IsUploadedInTime script.rules ulid journal }
    ensures marked { (ulid : ℕ) → IsMarkedInTime script.rules ulid journal }
    ensures synced { IsViewOf (sync_rules setting 0) journal used sync
        × IsSyncedInTime script.rules sync }
    ensures read { All (IsReadInTime script.rules used.view) query }
    ensures covered { LeavesNoneOut setting journal asked }
{}

/// A law: so no entry of it breaks a rule.
pub fn one_block_breaks_no_rule()
    ensures { IsUnbroken setting journal }
{}

/// A law: all that is guaranteed of a run holds of it.
pub fn one_block_is_guaranteed()
    ensures { IsGuaranteed setting journal ends }
{}

//! Laws on a run with two lawful journals, as the upload and the first sync of one phase may fall either way. Both are
//! reported alike: the block is too young to be seen when it stands already.

ghost use Rattle.std.specs.Prelude.{ℕ, true};
ghost use Rattle.world_core.specs.Standing.{IsHonest};
ghost use Rattle.script_core.specs.Lawful.{IsLawfulScript};
ghost use Rattle.script_core.specs.Spelling.{Spells};
ghost use Rattle.lifecycle_core.specs.Completed.{IsSettled};
ghost use Rattle.lifecycle_core.specs.Guarantees.{IsExact, IsGiven};
ghost use Rattle.lifecycle_core.specs.Phases.{IsFinished, IsRunOf};
ghost use Rattle.lifecycle_core.specs.Holdings.{Use};
ghost use Rattle.lifecycle_core.specs.Tasks.{sync_rules};
ghost use Rattle.call_verdicts.specs.Verdicts.{IsReport};
ghost use Rattle.tests_worked.specs.YoungBlock.{IsUploadedEarly, NamesAll, text, setting, script, report, first_asked, second_asked};
ghost use Rattle.tests_worked.specs.YoungBlock.{journal, ends, early, late, journal_turned, ends_turned, early_turned, late_turned};

/// A law: the script is what its text spells, and lawful.
pub fn young_block_is_spelled()
    ensures spelled { Spells text script }
    ensures lawful { IsLawfulScript script }
{}

/// A law: so it runs in the order of the lines, where the first sync finds nothing.
pub fn young_block_runs()
    ensures run { IsRunOf setting journal ends }
    ensures honest { IsHonest journal }
{}

/// A law: so it runs with the upload first, where the first sync finds the block and does not keep it.
pub fn young_block_is_not_kept()
    ensures run { IsRunOf setting journal_turned ends_turned }
    ensures honest { IsHonest journal_turned }
{}

/// A law: all is done, and what is printed says so. It is the same after both.
pub fn young_block_is_reported()
    ensures finished { IsFinished setting ends }
    ensures report { IsReport script script.phases ends true report }
    ensures turned_finished { IsFinished setting ends_turned }
    ensures turned_report { IsReport script script.phases ends_turned true report }
{}

/// A law: the first query answers nothing in both, which is exact for the sources that it names, none. It does not have to
/// name the block, which is not old enough.
pub fn young_block_is_not_answered()
    ensures given { IsGiven setting ends (first_asked early) }
    ensures exact { IsExact setting (first_asked early) }
    ensures unsettled { (ulid : ℕ) → ¬ IsSettled setting journal (sync_rules setting 0) early ulid }
    ensures turned_given { IsGiven setting ends_turned (first_asked early_turned) }
    ensures turned_exact { IsExact setting (first_asked early_turned) }
    ensures turned_unsettled { (ulid : ℕ) → ¬ IsSettled setting journal_turned
        (sync_rules setting 0) early_turned ulid }
{}

/// A law: a block that was complete before a sync began is not named where it was too young.
pub fn young_block_is_left_out()
    ensures { ¬ NamesAll IsUploadedEarly (first_asked early_turned) }
{}

/// A law: the second query answers the block in both, exactly.
pub fn young_block_is_answered_later()
    ensures given { IsGiven setting ends (second_asked late) }
    ensures turned_given { IsGiven setting ends_turned (second_asked late_turned) }
    ensures exact { (used : Use) → IsExact setting (second_asked used) }
{}

//! Laws on changes of that run, each of which is refused. So it is seen that the definitions do not take whatever
//! comes.

ghost use Rattle.std.specs.Prelude.{ℕ, List, ◌++◌, Bool};
ghost use Rattle.world_core.specs.declared.entry.Entry.{Entry};
ghost use Rattle.world_core.specs.Standing.{IsHonest};
ghost use Rattle.lifecycle_core.specs.Causes.{IsExplained};
ghost use Rattle.lifecycle_core.specs.Guarantees.{IsExact, IsGuaranteed, LeavesNoneOut, NamesUploads};
ghost use Rattle.lifecycle_core.specs.Phases.{IsLawfulJournal};
ghost use Rattle.call_verdicts.specs.Verdicts.{IsReport};
ghost use Rattle.tests_worked.specs.LostIndex as lost;
ghost use Rattle.tests_worked.specs.OneBlock.{setting, script, journal, ends};
ghost use Rattle.tests_worked.specs.OneBlockChanged.{at_gateways_seat, clock_stands, index_first, meta_absent, no_look};
ghost use Rattle.tests_worked.specs.OneBlockChanged.{nothing_answered, nothing_of_block, report_without_source, strange_source};

/// A law: no lawful journal puts the index before the segment, whatever follows.
pub fn index_before_segment_is_refused()
    ensures { (rest : List Entry) → ¬ IsLawfulJournal setting (index_first ++ rest) }
{}

/// A law: no lawful journal puts an object of the block before the look at its meta.
pub fn put_without_look_is_refused()
    ensures { (rest : List Entry) → ¬ IsLawfulJournal setting (no_look ++ rest) }
{}

/// A law: no lawful journal has the upload's entries at the gateway's seat.
pub fn upload_at_gateways_seat_is_refused()
    ensures { (rest : List Entry) → ¬ IsLawfulJournal setting (at_gateways_seat ++ rest) }
{}

/// A law: no lawful journal has an operation that takes no time.
pub fn clock_that_stands_is_refused()
    ensures { (rest : List Entry) → ¬ IsLawfulJournal setting (clock_stands ++ rest) }
{}

/// A law: no lawful journal has a query that reads a block whose meta its sync found absent, whatever the views are said to be.
pub fn read_of_absent_block_is_refused()
    ensures { (rest : List Entry) → ¬ IsLawfulJournal setting (meta_absent ++ rest) }
{}

/// A law: nor is a journal honest where the meta is absent after it was put.
pub fn absent_meta_is_a_lie()
    ensures { (rest : List Entry) → ¬ IsHonest (meta_absent ++ rest) }
{}

/// A law: without its source an answer is not reported.
pub fn report_without_source_is_refused()
    ensures { (as_asked : Bool)
        → ¬ IsReport script script.phases ends as_asked report_without_source }
{}

/// A law: an answer that names no block leaves out the one that was complete and old enough.
pub fn answer_of_nothing_leaves_one_out()
    ensures { ¬ LeavesNoneOut setting journal nothing_answered }
{}

/// A law: an answer without the block's sample is not exact where it names the block.
pub fn answer_without_sample_is_not_exact()
    ensures { ¬ IsExact setting nothing_of_block }
{}

/// A law: no answer may name a block that the script does not declare.
pub fn strange_source_is_refused()
    ensures { ¬ NamesUploads setting journal strange_source }
{}

/// A law: the run's own journal explains no missing object, so that a run which says that one was missing is not guaranteed.
pub fn missing_without_cause_is_refused()
    ensures unexplained { (number : ℕ) → ¬ IsExplained setting journal number }
    ensures unguaranteed { ¬ IsGuaranteed setting journal lost.ends }
{}

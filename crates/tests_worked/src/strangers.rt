ghost use Rattle.lifecycle_core.specs.Acting.{IsActing};
ghost use Rattle.lifecycle_core.specs.Phases.{IsLawfulJournal};
ghost use Rattle.tests_worked.specs.LateUpload.{setting};
ghost use Rattle.tests_worked.specs.Strangers.{journal_with, lists, puts};

/// A law: where the upload's worker has another seat than the script gives it, and a stranger lists a page beside it, the journal is
/// acting, and not lawful.
pub fn stranger_that_lists_acts()
    ensures acting { IsActing setting (journal_with lists) }
    ensures unlawful { ¬ IsLawfulJournal setting (journal_with lists) }
{}

/// A law: where the stranger puts an object, the journal is not acting, whatever seat the upload's worker is said to have.
pub fn stranger_that_puts_is_refused()
    ensures { ¬ IsActing setting (journal_with puts) }
{}

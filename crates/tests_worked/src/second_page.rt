ghost use Rattle.std.specs.Prelude.{Option, Some};
ghost use Rattle.meta_fetcher.specs.declared.sync.SyncEnd.{SyncEnd};
ghost use Rattle.meta_fetcher.specs.declared.sync.SyncEnd.TheVariants as fetched;
ghost use Rattle.lifecycle_core.specs.Breaches.{IsSyncIn};
ghost use Rattle.lifecycle_core.specs.SyncsAndCalls.{IsSyncBy};
ghost use Rattle.lifecycle_core.specs.Tasks.{sync_rules};
ghost use Rattle.tests_worked.specs.SecondPage.{journal, second, setting, sync, view};

/// A law: where a sync asks for the first page a second time, the entries from then on read like a sync too. They are none of the
/// gateway's, as its sync that began before reaches into them.
pub fn second_page_begins_no_sync()
    ensures whole { IsSyncIn setting journal 0 sync (Some (fetched.View (view 2 1))) }
    ensures alike { IsSyncBy (sync_rules setting 0) journal 1 second
        (Some (fetched.View (view 3 2))) }
    ensures refused { (end : Option SyncEnd) → ¬ IsSyncIn setting journal 0 second end }
{}

//! Laws of syncs.
ghost use Rattle.std.specs.Prelude.{List, Some};
ghost use Rattle.world_core.specs.Plans.{Runs};
ghost use Rattle.world_core.specs.declared.entry.Entry.{Entry};
ghost use Rattle.meta_fetcher.specs.Syncs.{SyncRun};
ghost use Rattle.meta_fetcher.specs.OneView.{whole_sync};
ghost use Rattle.meta_fetcher.specs.declared.rules.SyncRules.{SyncRules};
ghost use Rattle.meta_fetcher.specs.declared.sync.SyncEnd.{SyncEnd};

/// A law: a sync is a run of a plan that ends as the sync does.
pub fn syncs_are_plans()
    ensures to { (rules : SyncRules) (entries : List Entry) (end : SyncEnd)
        → SyncRun rules entries (Some end) → Runs (whole_sync rules) entries (Some end) }
    ensures of { (rules : SyncRules) (entries : List Entry) (end : SyncEnd)
        → Runs (whole_sync rules) entries (Some end) → SyncRun rules entries (Some end) }
{}

ghost use Rattle.std.specs.Prelude.{◌≡◌};
ghost use Rattle.compactor.specs.Compactions.{sync_rules as rules_for};

use meta_fetcher::SyncRules;
use moment_core::{Partition, Rules, Span};

/// The rules of a compaction's sync.
pub(crate) fn sync_rules(rules: &Rules) -> SyncRules
    ensures { result ≡ rules_for rules.now }
{
    SyncRules {
        consistency: rules.consistency,
        mark_delay: Span {
            ms: rules.delete.ms / 2,
        },
        page_limit: rules.page_limit,
        partition: Partition::all_times(),
    }
}

ghost use Rattle.std.specs.Prelude.{◌≡◌, IfOk};
ghost use Rattle.store_ranges.specs.Caches.{held};
ghost use Rattle.script_running.specs.Sights.{cache_of, no_sight};

use base::NoMemory;
use meta_fetcher::View;
use std::alloc::Global;
use store_ranges::IndexCache;

/// How many ranges a cache has room for.
const MOST_RANGES: usize = 1_024;

/// By what a gateway sees, from one of its tasks to the next.
#[derive(Drop)]
pub struct Sight {
    /// The view of its last sync that gave one.
    pub view: Option<View>,
    /// The ranges of objects that its calls kept. Before the first call there are none.
    pub cache: Option<IndexCache>,
}

impl Sight {
    /// That of a gateway that has done nothing yet.
    pub fn new() -> Sight
        ensures { result ≡ no_sight }
    {
        Sight {
            view: None,
            cache: None,
        }
    }
}

/// The ranges that a gateway's calls kept, or room for some.
pub(crate) fn own_cache(alloc: Global, kept: Option<IndexCache>) -> Result<IndexCache, NoMemory>
    ensures { IfOk result (λ cache. held cache ≡ cache_of kept) }
{
    match kept {
        Some(cache) => Ok(cache),
        None => IndexCache::new(alloc, MOST_RANGES),
    }
}

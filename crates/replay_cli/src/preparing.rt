//! A run is prepared, in whichever way its tasks are to be done.

ghost use Rattle.call_verdicts.specs.Outside.{outside, site_call};
ghost use Rattle.call_verdicts.specs.Words.{named_by};
ghost use Rattle.replay_cli.specs.Calls.{Prepares};

use bucket_core::{Bucket, Site, Source};
use call_verdicts::script_running::ShelfBlockList;
use call_verdicts::{CheckWay, Ended, Named, Ready, read_and_open, read_blocks};
use run_notes::Finished;
use script_core::Script;
use std::alloc::Global;
use world_core::World;

/// What a run works with: the script, the blocks that it takes from the shelf, and a world in which nothing was done yet. The shelf
/// comes beside, where a word names one.
#[derive(Drop)]
pub(crate) struct Prepared<B: Bucket, F> {
    pub(crate) script: Script,
    pub(crate) blocks: ShelfBlockList,
    pub(crate) world: World<B>,
    pub(crate) shelf: Option<F>,
}

/// Reads the script and the blocks that it takes from the shelf, which are checked in this way, and opens the bucket; or ends the call.
pub(crate) fn prepare<S: Site, R: Source, W: CheckWay>(
    alloc: Global,
    named: &Named<'_>,
    site: &mut S,
    script: &mut R,
    way: &W,
) -> Result<Prepared<S::Store, S::Files>, Ended<S::Store, S::Files>>
    requires { W.can_check way.now }
    ensures { Prepares (outside (R.told script.old) (R.told script.new)
        (site_call (S.told site.old) (S.told site.new) S.Store.told S.Files.told))
        named.now.bucket.now (named_by named.now.shelf.now) result }
{
    match read_and_open(alloc, named.bucket, named.shelf, site, script) {
        Ok(
            Ready {
                script,
                world,
                shelf,
            },
        ) => {
            let (read, shelf) = read_blocks(alloc, &script, shelf, way);
            match read {
                Ok(blocks) => Ok(Prepared {
                    script,
                    blocks,
                    world,
                    shelf,
                }),
                Err(verdict) => {
                    drop(script);
                    Err(Ended::of_run(verdict, Finished::unbegun(world), shelf))
                }
            }
        }
        Err(ended) => Err(ended),
    }
}

//! What an upload ships. A block of the script's text is built when its upload is due, and not before, so that its
//! files take no memory while they are not needed; one of the shelf was read and checked before the first phase.

ghost use Rattle.std.specs.Prelude.{◌≡◌, ◌≢◌, Err, IfErr, IfOk};
ghost use Rattle.block_keys.specs.Blocks.{IsBlock};
ghost use Rattle.block_meta.specs.Built.{objects_of};
ghost use Rattle.block_meta.specs.MetaFields.{fields_of};
ghost use Rattle.block_meta.specs.MetaValue.{meta_text};
ghost use Rattle.block_meta.specs.Lawful.{AreLawfulTimes};
ghost use Rattle.script_core.specs.Lawful.{IsLawfulBlock};
ghost use Rattle.script_core.specs.declared.body.Body.TheVariants.{Inline};
ghost use Rattle.lifecycle_core.specs.Setting.{Setting};
ghost use Rattle.lifecycle_core.specs.Shipped.{IsPlanOf, IsRefused, IsShipped, too_large_cause};
ghost use Rattle.script_running.specs.Shelves.{Knows, WhereRefused, from_built};

use crate::shelf::{ShelfBlock, TOO_LARGE, shelf_objects};
use crate::unshipped::Unshipped;
use base::{NoMemory, TryCopy};
use block_keys::ObjectList;
use block_meta::{BlockFiles, BlockPlan, BuildRefusal, ParentList, files_objects, own_sources};
use block_writing::build;
use label_sets::{SeriesList, Text};
use script_core::{Block, Body};
use std::alloc::Global;

/// The objects of a declared block, in the order of their upload. An inline block is not shipped where its index would be too large;
/// one of the shelf, where the shelf has none that passes.
pub(crate) fn objects_of(
    alloc: Global,
    block: &Block,
    shelf: &[ShelfBlock],
) -> Result<ObjectList, Unshipped>
    requires lawful { IsLawfulBlock block.now }
    requires known { (setting : Setting) × Knows setting shelf.now block.now }
    ensures block { IfOk result (λ objects. IsBlock block.now.ulid objects) }
    ensures shipped { (setting : Setting) → Knows setting shelf.now block.now
        → IfOk result (λ objects. IsShipped setting block.now objects) }
    ensures refused { (setting : Setting) → Knows setting shelf.now block.now
        → IfErr result (WhereRefused (IsRefused setting block.now)) }
{
    match &block.body {
        Body::Inline {
            min_time,
            max_time,
            series,
        } => from_built(inline_objects(alloc, block, *min_time, *max_time, series)),
        Body::OnShelf => shelf_objects(shelf, block.ulid),
    }
}

/// What comes of a block that was to be built.
fn from_built(built: Result<ObjectList, BuildRefusal>) -> Result<ObjectList, Unshipped>
    ensures { result ≡ from_built built }
{
    match built {
        Ok(objects) => Ok(objects),
        Err(BuildRefusal::TooLarge) => Err(Unshipped::Refused(u32::from(TOO_LARGE))),
        Err(BuildRefusal::NoMemory) => Err(Unshipped::NoMemory),
    }
}

/// The objects of an inline block with these times and series.
#[tactic(auto, using(crate::proofs::Planned::buildable))]
fn inline_objects(
    alloc: Global,
    block: &Block,
    min_time: i64,
    max_time: i64,
    series: &SeriesList,
) -> Result<ObjectList, BuildRefusal>
    requires lawful { IsLawfulBlock block.now }
    requires body { block.now.body ≡ Inline min_time max_time series.now }
    ensures block { IfOk result (λ objects. IsBlock block.now.ulid objects) }
    ensures shipped { (setting : Setting)
        → IfOk result (λ objects. IsShipped setting block.now objects) }
    ensures refused { (setting : Setting) → result ≡ Err BuildRefusal.TooLarge
        → IsRefused setting block.now too_large_cause }
{
    let plan = plan_of(alloc, block, min_time, max_time)?;
    match build(alloc, &plan, series) {
        Ok(files) => built_objects(alloc, files),
        Err(refusal) => Err(refusal),
    }
}

/// The objects of files that were built.
fn built_objects(alloc: Global, files: BlockFiles) -> Result<ObjectList, BuildRefusal>
    ensures block { IfOk result (IsBlock files.meta.ulid) }
    ensures objects { IfOk result (λ objects. objects ≡ objects_of files.meta.ulid
        files.segments files.index (meta_text (fields_of files.meta))) }
    ensures small { result ≢ Err BuildRefusal.TooLarge }
{
    match files_objects(alloc, files) {
        Ok(objects) => Ok(objects),
        Err(NoMemory) => Err(BuildRefusal::NoMemory),
    }
}

/// What a declared block says of itself: level 1, itself as its one source, made by a sidecar.
fn plan_of(
    alloc: Global,
    block: &Block,
    min_time: i64,
    max_time: i64,
) -> Result<BlockPlan, NoMemory>
    requires { AreLawfulTimes min_time max_time }
    ensures { IfOk result (λ plan. IsPlanOf block.now min_time max_time plan) }
{
    Ok(BlockPlan {
        ulid: block.ulid,
        min_time,
        max_time,
        level: 1,
        sources: own_sources(alloc, block.ulid)?,
        parents: ParentList::new(alloc),
        labels: block.labels.copy()?,
        source: Text::from_str(alloc, "sidecar")?,
    })
}

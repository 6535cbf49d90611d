//! The files of a script's blocks are loaded from the shelf, to be checked.

ghost use Rattle.std.specs.Prelude.{◌≡◌, ◌++◌, ℕ, List, IfErr, IfOk};
ghost use Rattle.std.specs.List.{AllZip};
ghost use Rattle.bucket_core.specs.Asking.{Asks};
ghost use Rattle.block_loading.specs.Loading.{names_read};
ghost use Rattle.script_core.specs.declared.block.Block.{Block};
ghost use Rattle.call_verdicts.specs.Asked.{WasRead, shelf_ulids};
ghost use Rattle.call_verdicts.specs.ShelfReads.{AsksFor, WhyUnread};
ghost use Rattle.call_verdicts.specs.Stages.{IsLoadedFor, IsLoadedNext, IsStageOf, stage_of};

use crate::{Stage, Verdict};
use block_loading::{LoadRefusal, LoadedBlock};
use bucket_core::Shelf;
use script_core::{Block, Body};
use std::alloc::Global;
use ulid_core::Ulid;

/// Loads those of the blocks that are taken from the shelf, in their order.
pub(crate) fn load_group<F: Shelf>(
    alloc: Global,
    group: &[Block],
    shelf: F,
) -> (Result<Vec<Stage>, Verdict>, F)
    ensures loaded { IfOk result.0
        (λ stages. AllZip (IsLoadedFor (F.told shelf).files) group.now stages.items) }
    ensures broken { IfErr result.0 (WhyUnread (F.told shelf).faults (F.told result.1).faults) }
    ensures calm { IfOk result.0 (λ _. (F.told result.1).faults ≡ (F.told shelf).faults) }
    ensures asked { (front : List Block) → WasRead F.told (shelf_ulids front) shelf
        → WasRead F.told (shelf_ulids (front ++ group.now)) result.1 }
    ensures same { (F.told result.1).files ≡ (F.told shelf).files }
{
    let mut shelf = shelf;
    let mut stages = Vec::new(alloc);
    for block in group {
        let (came, next) = load_next(alloc, block, &mut stages, shelf);
        shelf = next;
        if let Err(verdict) = came {
            drop(stages);
            return (Err(verdict), shelf);
        }
    }
    (Ok(stages), shelf)
}

/// Loads the block where the script takes it from the shelf.
#[tactic(auto, using(crate::proofs::Stages::next_loaded, crate::proofs::Stages::next_aside, crate::proofs::ShelfReads::inline_apart))]
fn load_next<F: Shelf>(
    alloc: Global,
    block: &Block,
    stages: &mut Vec<Stage>,
    shelf: F,
) -> (Result<(), Verdict>, F)
    ensures loaded { IfOk result.0
        (λ _. IsLoadedNext (F.told shelf).files block.now stages.old.items stages.new.items) }
    ensures broken { IfErr result.0 (WhyUnread (F.told shelf).faults (F.told result.1).faults) }
    ensures calm { IfOk result.0 (λ _. (F.told result.1).faults ≡ (F.told shelf).faults) }
    ensures asks { AsksFor F.told shelf result.1 block.now }
    ensures same { (F.told result.1).files ≡ (F.told shelf).files }
{
    match &block.body {
        Body::OnShelf => {
            let (came, shelf) = load_block(alloc, block.ulid, shelf);
            match came {
                Ok(stage) => match stages.push(stage) {
                    Ok(()) => (Ok(()), shelf),
                    Err(_) => (Err(Verdict::NoMemory), shelf),
                },
                Err(verdict) => (Err(verdict), shelf),
            }
        }
        Body::Inline { .. } => match stages.push(Stage::Aside) {
            Ok(()) => (Ok(()), shelf),
            Err(_) => (Err(Verdict::NoMemory), shelf),
        },
    }
}

/// Loads a block of the shelf.
fn load_block<F: Shelf>(alloc: Global, ulid: Ulid, shelf: F) -> (Result<Stage, Verdict>, F)
    ensures loaded { IfOk result.0 (IsStageOf (F.told shelf).files ulid) }
    ensures broken { IfErr result.0 (WhyUnread (F.told shelf).faults (F.told result.1).faults) }
    ensures calm { IfOk result.0 (λ _. (F.told result.1).faults ≡ (F.told shelf).faults) }
    ensures asks { (count : ℕ)
        × Asks (F.told shelf).asked (F.told result.1).asked (names_read ulid count) }
    ensures same { (F.told result.1).files ≡ (F.told shelf).files }
{
    let mut shelf = shelf;
    let loaded = LoadedBlock::load(alloc, &mut shelf, ulid);
    (stage_of(loaded), shelf)
}

/// How far the check of a block is, by the end of its loading; or what breaks the reading off.
fn stage_of(loaded: Result<LoadedBlock, LoadRefusal>) -> Result<Stage, Verdict>
    ensures { result ≡ stage_of loaded }
{
    match loaded {
        Ok(block) => Ok(Stage::Loaded(block)),
        Err(LoadRefusal::Refused(refusal)) => Ok(Stage::Ended(Err(LoadRefusal::Refused(refusal)))),
        Err(LoadRefusal::ShelfFault) => Err(Verdict::SiteFault),
        Err(LoadRefusal::NoMemory) => Err(Verdict::NoMemory),
    }
}

ghost use Rattle.std.specs.Prelude.{◌≡◌, ◌==◌, Some, IsTrue, find, option_map};
ghost use Rattle.script_core.specs.Lawful.{IsLawfulScript, IsLawfulBlock};
ghost use Rattle.script_core.specs.Blocks.{declares};
ghost use Rattle.lifecycle_core.specs.Held.{declared};

use script_core::{Block, Script};
use std::snapshot::Snapshot;
use ulid_core::Ulid;

/// The declared block of a ULID, where the blocks of the script are at hand.
#[tactic(auto, using(crate::proofs::Blocks::is_found))]
pub(crate) fn block_among<'a>(
    script: &Snapshot<Script>,
    blocks: &'a [Block],
    ulid: Ulid,
) -> &'a Block
    requires lawful { IsLawfulScript script.now.value }
    requires own { blocks.now ≡ script.now.value.blocks }
    requires declared { IsTrue (declares script.now.value.blocks ulid) }
    ensures found { declared script.now.value ulid ≡ Some result.now }
    ensures lawful { IsLawfulBlock result.now }
{
    let _script = script;
    match find_block(blocks, ulid) {
        Some(block) => block,
        None => unreachable!(),
    }
}

/// The first of the blocks with a ULID.
pub(crate) fn find_block(blocks: &[Block], ulid: Ulid) -> Option<&Block>
    ensures { option_map (λ block. block.now) result
        ≡ find (λ block. block.ulid == ulid) blocks.now }
{
    blocks.iter().find(|block| block.ulid == ulid)
}

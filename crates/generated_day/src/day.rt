//! The script of the generated day.

ghost use Rattle.std.specs.Prelude.{◌≡◌, ◌++◌, IfErr, IfOk, OnOk};
ghost use Rattle.script_core.specs.Lawful.{IsLawfulScript};
ghost use Rattle.script_core.specs.Spelling.{Spells};
ghost use Rattle.script_fields.specs.declared.script_refusal.ScriptRefusal.TheVariants as refusals;
ghost use Rattle.generated_day.specs.Wanting.{ReadsOrWants};
ghost use Rattle.generated_day.specs.Day.{all_blocks_text, all_uploads_text, all_rounds_text, setup_text, cleaning_text, phases_text, day_text};

use crate::lines::{FIRST_LOOK, put_at, put_look, put_round, put_uploads, read_blocks};
use crate::samples::{BLOCK_COUNT, DAY_START};
use base::NoMemory;
use moment_core::{HOUR, MINUTE};
use script_core::{PartReader, Script, ScriptRefusal};
use std::alloc::Global;

/// When both gateways look behind the rounds of compaction.
const SECOND_LOOK: u64 = DAY_START + 26 * HOUR;

/// When the cleaning begins: as long after that as a mark stands before what it marks is deleted.
const CLEANING_BEGIN: u64 = DAY_START + 74 * HOUR;

/// How many rounds of compaction there are.
const ROUND_COUNT: u64 = 15;

/// The script of the generated day with this number, which mixes the samples' patterns.
pub fn generated_script(alloc: Global, number: u64) -> Result<Script, ScriptRefusal>
    ensures spelled { IfOk result (λ script. Spells (day_text number) script) }
    ensures lawful { IfOk result (λ script. IsLawfulScript script) }

    // Where it is refused, memory was wanting.
    ensures refused { IfErr result (λ e. e ≡ refusals.NoMemory) }
{
    let mut reader = PartReader::new(alloc);
    match read_day(&mut reader, alloc, number) {
        Ok(()) => reader.finish(alloc),
        Err(refusal) => {
            reader.discard();
            Err(refusal)
        }
    }
}

/// Reads the lines of the day. No text of its samples is made: it would have 30 MB.
#[tactic(auto, unfolding(crate::specs::Day::day_text))]
fn read_day(reader: &mut PartReader, alloc: Global, number: u64) -> Result<(), ScriptRefusal>
    ensures { ReadsOrWants reader.old reader.new (day_text number) result }
{
    reader.read_lines(
        alloc,
        b"rule replica-label replica\ngateway g1\ngateway g2\n",
    )?;
    read_all_blocks(reader, alloc, number)?;
    let mut phases = Vec::new(alloc);
    put_phases(&mut phases)?;
    reader.read_lines(alloc, phases.as_slice())
}

fn read_all_blocks(reader: &mut PartReader, alloc: Global, number: u64) -> Result<(), ScriptRefusal>
    ensures { ReadsOrWants reader.old reader.new (all_blocks_text number) result }
{
    for block in 0..BLOCK_COUNT {
        read_blocks(reader, alloc, number, block)?;
    }
    Ok(())
}

#[tactic(auto, unfolding(crate::specs::Day::phases_text))]
fn put_phases(out: &mut Vec<u8>) -> Result<(), NoMemory>
    ensures { OnOk result (out.new.items ≡ out.old.items ++ phases_text) }
{
    put_all_uploads(out)?;
    put_look(out, FIRST_LOOK)?;
    put_rounds(out)?;
    put_look(out, SECOND_LOOK)?;
    put_cleaning(out)?;
    put_look(out, CLEANING_BEGIN + MINUTE)
}

fn put_all_uploads(out: &mut Vec<u8>) -> Result<(), NoMemory>
    ensures { OnOk result (out.new.items ≡ out.old.items ++ all_uploads_text) }
{
    for block in 0..BLOCK_COUNT {
        put_uploads(out, block)?;
    }
    Ok(())
}

fn put_rounds(out: &mut Vec<u8>) -> Result<(), NoMemory>
    ensures { OnOk result (out.new.items ≡ out.old.items ++ all_rounds_text) }
{
    for round in 1..ROUND_COUNT + 1 {
        put_round(out, round)?;
    }
    Ok(())
}

#[tactic(auto, unfolding(crate::specs::Day::cleaning_text))]
fn put_cleaning(out: &mut Vec<u8>) -> Result<(), NoMemory>
    ensures { OnOk result (out.new.items ≡ out.old.items ++ cleaning_text) }
{
    put_at(out, CLEANING_BEGIN)?;
    out.extend_from_slice(b"clean\n")?;
    Ok(())
}

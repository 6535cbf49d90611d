//! The lines of the generated day.

ghost use Rattle.std.specs.Prelude.{◌≡◌, ◌<◌, ◌≤◌, ◌*◌, ◌+◌, ◌++◌, OnOk};
ghost use Rattle.generated_day.specs.Wanting.{ReadsOrWants};
ghost use Rattle.generated_day.specs.Day.{two_digits, labels_text, all_series_text, times_text, external_text, at_line, upload_line, series_line, block_line, block_text, blocks_at, uploads_at, look_text, round_text, ulid_of, block_count, round_count, series_count};

use crate::samples::{DAY_START, block_start, samples_of};
use base::{NoMemory, put_unsigned};
use moment_core::{HOUR, MINUTE};
use script_core::{PartReader, ScriptRefusal};
use std::alloc::Global;
use ulid_core::Ulid;

/// When both gateways look first. The rounds of compaction follow.
pub(crate) const FIRST_LOOK: u64 = DAY_START + 25 * HOUR;

/// How many series a block has.
const SERIES_COUNT: u64 = 100;

/// The ULID of a replica's block.
fn ulid_of(block: u64, replica: u64) -> Ulid
    requires block { block < block_count }
    requires replica { replica < 2 }
    ensures { result ≡ ulid_of block replica }
{
    Ulid::from_parts(block_start(block + 1), u128::from(2 * block + replica + 1))
}

/// Appends a number below 100 in two digits.
#[tactic(auto, unfolding(crate::specs::Day::two_digits))]
fn put_two_digits(out: &mut Vec<u8>, number: u64) -> Result<(), NoMemory>
    requires { number < 100 }
    ensures { OnOk result (out.new.items ≡ out.old.items ++ two_digits number) }
{
    out.push(b'0' + (number / 10) as u8)?;
    out.push(b'0' + (number % 10) as u8)?;
    Ok(())
}

#[tactic(auto, unfolding(crate::specs::Day::labels_text))]
fn put_labels(out: &mut Vec<u8>, series: u64) -> Result<(), NoMemory>
    requires { series < series_count }
    ensures { OnOk result (out.new.items ≡ out.old.items ++ labels_text series) }
{
    out.extend_from_slice(b"{__name__=\"m\",inst=\"i")?;
    put_two_digits(out, series)?;
    out.extend_from_slice(b"\"}")?;
    Ok(())
}

/// Reads the line of a series.
fn read_series(
    reader: &mut PartReader,
    alloc: Global,
    number: u64,
    block: u64,
    replica: u64,
    series: u64,
) -> Result<(), ScriptRefusal>
    requires block { block < block_count }
    requires series { series < series_count }
    ensures { ReadsOrWants reader.old reader.new (series_line number block replica series)
        result }
{
    let mut labels = Vec::new(alloc);
    put_labels(&mut labels, series)?;
    let samples = samples_of(alloc, number, block, replica, series)?;
    reader.read_series(alloc, labels.as_slice(), samples)
}

/// Appends the times of a block: its first millisecond, and the one behind its last.
#[tactic(auto, unfolding(crate::specs::Day::times_text))]
fn put_times(out: &mut Vec<u8>, block: u64) -> Result<(), NoMemory>
    requires { block < block_count }
    ensures { OnOk result (out.new.items ≡ out.old.items ++ times_text block) }
{
    put_unsigned(out, block_start(block))?;
    out.push(b' ')?;
    put_unsigned(out, block_start(block + 1))
}

/// Appends a replica's external labels.
#[tactic(auto, unfolding(crate::specs::Day::external_text))]
fn put_external(out: &mut Vec<u8>, replica: u64) -> Result<(), NoMemory>
    ensures { OnOk result (out.new.items ≡ out.old.items ++ external_text replica) }
{
    out.extend_from_slice(b"{cluster=\"c\",replica=\"")?;
    put_unsigned(out, replica)?;
    out.extend_from_slice(b"\"}")?;
    Ok(())
}

#[tactic(auto, unfolding(crate::specs::Day::block_line))]
fn put_block_line(out: &mut Vec<u8>, block: u64, replica: u64) -> Result<(), NoMemory>
    requires block { block < block_count }
    requires replica { replica < 2 }
    ensures { OnOk result (out.new.items ≡ out.old.items ++ block_line block replica) }
{
    out.extend_from_slice(b"block ")?;
    ulid_of(block, replica).put_text(out)?;
    out.push(b' ')?;
    put_times(out, block)?;
    out.push(b' ')?;
    put_external(out, replica)?;
    out.push(b'\n')?;
    Ok(())
}

/// Reads a block's line and those of its hundred series.
#[tactic(auto, unfolding(crate::specs::Day::block_text))]
fn read_block(
    reader: &mut PartReader,
    alloc: Global,
    number: u64,
    block: u64,
    replica: u64,
) -> Result<(), ScriptRefusal>
    requires block { block < block_count }
    requires replica { replica < 2 }
    ensures { ReadsOrWants reader.old reader.new (block_text number block replica) result }
{
    let mut line = Vec::new(alloc);
    put_block_line(&mut line, block, replica)?;
    reader.read_lines(alloc, line.as_slice())?;
    read_all_series(reader, alloc, number, block, replica)
}

fn read_all_series(
    reader: &mut PartReader,
    alloc: Global,
    number: u64,
    block: u64,
    replica: u64,
) -> Result<(), ScriptRefusal>
    requires block { block < block_count }
    ensures { ReadsOrWants reader.old reader.new (all_series_text number block replica) result }
{
    for series in 0..SERIES_COUNT {
        read_series(reader, alloc, number, block, replica, series)?;
    }
    Ok(())
}

/// Reads both replicas' blocks of the same time.
#[tactic(auto, unfolding(crate::specs::Day::blocks_at))]
pub(crate) fn read_blocks(
    reader: &mut PartReader,
    alloc: Global,
    number: u64,
    block: u64,
) -> Result<(), ScriptRefusal>
    requires { block < block_count }
    ensures { ReadsOrWants reader.old reader.new (blocks_at number block) result }
{
    read_block(reader, alloc, number, block, 0)?;
    read_block(reader, alloc, number, block, 1)
}

/// Appends the line that begins a phase.
#[tactic(auto, unfolding(crate::specs::Day::at_line))]
pub(crate) fn put_at(out: &mut Vec<u8>, moment: u64) -> Result<(), NoMemory>
    ensures { OnOk result (out.new.items ≡ out.old.items ++ at_line moment) }
{
    out.extend_from_slice(b"at ")?;
    put_unsigned(out, moment)?;
    out.push(b'\n')?;
    Ok(())
}

#[tactic(auto, unfolding(crate::specs::Day::upload_line))]
fn put_upload(out: &mut Vec<u8>, block: u64, replica: u64) -> Result<(), NoMemory>
    requires block { block < block_count }
    requires replica { replica < 2 }
    ensures { OnOk result (out.new.items ≡ out.old.items ++ upload_line block replica) }
{
    out.extend_from_slice(b"upload ")?;
    ulid_of(block, replica).put_text(out)?;
    out.push(b'\n')?;
    Ok(())
}

/// Appends the phase in which both replicas ship their blocks, at the end of these.
#[tactic(auto, unfolding(crate::specs::Day::uploads_at))]
pub(crate) fn put_uploads(out: &mut Vec<u8>, block: u64) -> Result<(), NoMemory>
    requires { block < block_count }
    ensures { OnOk result (out.new.items ≡ out.old.items ++ uploads_at block) }
{
    put_at(out, block_start(block + 1))?;
    put_upload(out, block, 0)?;
    put_upload(out, block, 1)
}

/// Appends a phase in which both gateways sync and are asked for the day.
#[tactic(auto, unfolding(crate::specs::Day::look_text))]
pub(crate) fn put_look(out: &mut Vec<u8>, moment: u64) -> Result<(), NoMemory>
    ensures { OnOk result (out.new.items ≡ out.old.items ++ look_text moment) }
{
    put_at(out, moment)?;
    out.extend_from_slice(b"sync g1\nsync g2\nquery 1728000000000 1728086400000 {}\n")?;
    Ok(())
}

/// Appends the phase of a round of compactions.
#[tactic(auto, unfolding(crate::specs::Day::round_text))]
pub(crate) fn put_round(out: &mut Vec<u8>, round: u64) -> Result<(), NoMemory>
    requires { round ≤ round_count }
    ensures { OnOk result (out.new.items ≡ out.old.items ++ round_text round) }
{
    put_at(out, FIRST_LOOK + round * MINUTE)?;
    out.extend_from_slice(b"compact\n")?;
    Ok(())
}

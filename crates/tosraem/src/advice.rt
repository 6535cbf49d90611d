//! What standard error is told of a call.
ghost use Rattle.std.specs.Prelude.{◌≡◌, ◌++◌, OnOk};
ghost use Rattle.std.specs.Io.KnownBytes.{Appends};
ghost use Rattle.replay_cli.specs.call_verdicts.specs.Statuses.{number_of};
ghost use Rattle.tosraem.specs.Advice.{advice_of};
ghost use Rattle.tosraem.specs.Said.{said_of};

use crate::troubles::{Troubles, bucket_line, report_line, shelf_line};
use replay_cli::Status;
use std::io;
use std::io::Write;

/// How the program is called, a line a form, what stands for the words, and which version it is.
const USAGE: &str =
    "usage: tosraem serial BUCKET SHELF < SCRIPT    runs a script, one activity after another
       tosraem replay BUCKET SHELF < SCRIPT    runs it with those of one phase beside each other, in threads
       tosraem check SHELF ULID                checks one block, as a shipper does before it ships
       tosraem generate NUMBER                 runs a day that the program makes itself
BUCKET is the word memory, or a folder that is new or empty. SHELF is the word none, or a folder of blocks.
ULID is the name of a block's folder: 26 characters, upper case.
This is version 0.1. README.md says more.
";

/// Says on standard error, or to another writer, what is to be said of a call that ended with this number, with this trouble and
/// with these messages on its failures.
pub(crate) fn tell<W: Write>(
    number: u8,
    troubles: Troubles,
    messages: &[u8],
    errors: &mut W,
) -> io::Result<()>
    ensures { (status : Status) → number ≡ number_of status → OnOk result
        (Appends (W.contents errors.old) (W.contents errors.new)
        (messages.now ++ said_of status troubles)) }
{
    match Status::from_number(number) {
        Some(status) => say(status, troubles, messages, errors),
        None => Ok(()),
    }
}

#[tactic(auto, using(crate::proofs::Saying::said_in_turn))]
fn say<W: Write>(
    status: Status,
    troubles: Troubles,
    messages: &[u8],
    errors: &mut W,
) -> io::Result<()>
    ensures { OnOk result (Appends (W.contents errors.old) (W.contents errors.new)
        (messages.now ++ said_of status troubles)) }
{
    errors.write_all(messages)?;
    errors.write_all(advice(status).as_bytes())?;
    errors.write_all(bucket_line(troubles.bucket).as_bytes())?;
    errors.write_all(shelf_line(troubles.shelf).as_bytes())?;
    errors.write_all(report_line(troubles.report).as_bytes())
}

/// How the program is called; or what to do about a call that wrote no report. Nothing where it wrote one.
fn advice(status: Status) -> &'static str
    ensures { result.now ≡ advice_of status }
{
    match status {
        Status::Done | Status::ActivityFailed => "",
        Status::WordsRefused => USAGE,
        Status::ScriptRefused => {
            "The script was not run. docs/SCRIPT.md tells the causes under What is refused; bad rules speaks of the rule lines above the one that is named.\n"
        }
        Status::SourceFault => {
            "The script comes from standard input: see that it can be read, and run again.\n"
        }
        Status::SinkFault => {
            "The report goes to standard output: see that its reader stays and that there is room for it, and run again.\n"
        }
        Status::NoMemory => {
            "There was not enough memory: run again where there is more of it.\n"
        }
        Status::BucketNotEmpty => {
            "A run begins with an empty bucket, and this folder holds something: name a new one. (BUCKET comes first, SHELF second.)\n"
        }
        Status::JournalFull => {
            "The journal of one run has room for 1,048,576 operations and for a gibibyte of what they move: only a script that does less runs to its end.\n"
        }
        Status::SiteFault => {
            "BUCKET or SHELF could not be opened or read: see that SHELF is there, that both are folders, and that they may be read and BUCKET written.\n"
        }
    }
}

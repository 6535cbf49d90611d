//! What a call comes to, with its status and its text. The text is whole before a byte of it is written, so a call that
//! lacks memory for it writes nothing.

ghost use Rattle.std.specs.Prelude.{◌≡◌, ◌≢◌, ◌++◌, ◌∷◌, [], codes, false, IfOk, OnErr, OnOk};
ghost use Rattle.base.specs.Lines.{newline};
ghost use Rattle.report_lines.specs.CheckLines.{check_line};
ghost use Rattle.script_fields.specs.Wording.{refusal_text};
ghost use Rattle.call_verdicts.specs.Verdicts.{first_of, is_at_hand, last_of, status_of};

use crate::Status;
use base::NoMemory;
use label_sets::Text;
use report_lines::{CheckOutcome, put_check};
use script_core::ScriptRefusal;
use std::alloc::Global;
use ulid_core::Ulid;

/// What a call of the program comes to, before a word of it is written.
#[derive(Drop)]
pub enum Verdict {
    /// The words are no form of a call.
    WordsRefused,
    /// The script could not be read.
    SourceFault,
    /// The text is no script, or too long.
    ScriptRefused(ScriptRefusal),
    /// The bucket or the shelf could not be opened, the bucket not listed, or a file of the shelf not read.
    SiteFault,
    /// An object stood in the bucket before; this is the bucket's least name.
    NotEmpty(Text),
    /// The journal took no more entries. The lines are those of the finished phases.
    Full(Vec<u8>),
    /// The script was run to its end. The flag tells whether every activity ended as asked.
    Report(Vec<u8>, bool),
    /// The block was checked.
    Checked(Ulid, CheckOutcome),
    NoMemory,
}

impl Verdict {
    /// The status that the verdict asks for.
    pub fn status(&self) -> Status
        ensures { result ≡ status_of self.now }
    {
        match self {
            Verdict::WordsRefused => Status::WordsRefused,
            Verdict::SourceFault => Status::SourceFault,
            Verdict::ScriptRefused(_) => Status::ScriptRefused,
            Verdict::SiteFault => Status::SiteFault,
            Verdict::NotEmpty(_) => Status::BucketNotEmpty,
            Verdict::Full(_) => Status::JournalFull,
            Verdict::Report(_, true) => Status::Done,
            Verdict::Report(_, false) => Status::ActivityFailed,
            Verdict::Checked(_, CheckOutcome::Passed(..)) => Status::Done,
            Verdict::Checked(_, CheckOutcome::Refused(_)) => Status::ActivityFailed,
            Verdict::NoMemory => Status::NoMemory,
        }
    }

    /// The line that is to be written last. It stands in the program.
    pub fn last_line(&self) -> &'static str
        ensures { result.now ≡ last_of self.now }
    {
        match self {
            Verdict::Full(_) => "journal full\n",
            Verdict::WordsRefused => "words refused\n",
            Verdict::SourceFault => "script read fault\n",
            Verdict::SiteFault => "site fault\n",
            _ => "",
        }
    }

    /// What is to be written before the last line. Want of memory has no words. What is at hand takes no memory.
    pub fn into_text(self, alloc: Global) -> Result<Vec<u8>, NoMemory>
        ensures text { IfOk result (λ text. text.items ≡ first_of self) }
        ensures words { OnOk result (self ≢ Verdict.NoMemory) }
        ensures kept { OnErr result (is_at_hand self ≡ false) }
    {
        match self {
            Verdict::WordsRefused | Verdict::SourceFault | Verdict::SiteFault => Ok(Vec::new(
                alloc,
            )),
            Verdict::ScriptRefused(refusal) => refusal_line(alloc, refusal),
            Verdict::NotEmpty(name) => name_line(alloc, &name),
            Verdict::Full(lines) | Verdict::Report(lines, _) => Ok(lines),
            Verdict::Checked(block, outcome) => check_line(alloc, block, outcome),
            Verdict::NoMemory => Err(NoMemory),
        }
    }
}

fn refusal_line(alloc: Global, refusal: ScriptRefusal) -> Result<Vec<u8>, NoMemory>
    ensures { IfOk result
        (λ text. text.items ≡ codes "script refused: " ++ refusal_text refusal ++ newline) }
{
    let mut text = Vec::from_slice(alloc, b"script refused: ")?;
    refusal.write(&mut text)?;
    text.push(b'\n')?;
    Ok(text)
}

fn name_line(alloc: Global, name: &Text) -> Result<Vec<u8>, NoMemory>
    ensures { IfOk result (λ text. text.items ≡ codes "bucket not empty: " ++ name.now ++ newline) }
{
    let mut text = Vec::from_slice(alloc, b"bucket not empty: ")?;
    text.extend_from_slice(name.as_str().as_bytes())?;
    text.push(b'\n')?;
    Ok(text)
}

fn check_line(alloc: Global, block: Ulid, outcome: CheckOutcome) -> Result<Vec<u8>, NoMemory>
    ensures { IfOk result (λ text. text.items ≡ check_line block outcome) }
{
    let mut text = Vec::new(alloc);
    put_check(&mut text, block, outcome)?;
    Ok(text)
}

//! Why a text is no script: the first line that is not lawful, in the words of a report. Want of memory is told apart,
//! since it says nothing of the text.

ghost use Rattle.std.specs.Prelude.{◌≡◌, ◌++◌, IfOk, codes};
ghost use Rattle.base.specs.Decimal.{decimal_text};
ghost use Rattle.script_fields.specs.declared.script_refusal.ScriptRefusal.TheVariants.{NoMemory};
ghost use Rattle.script_fields.specs.Wording.{cause_number, line_text};

use crate::LineCause;
use base::{NoMemory, put_unsigned};
use std::alloc::Global;

/// Why a text is no script. A number is that of the line, from 1.
#[derive(Clone, Copy, Debug, PartialEq, Eq)]
pub enum ScriptRefusal {
    /// The text has more than 67,108,864 bytes.
    TooLong,
    /// What the line says by itself, or after the lines before it, is wrong.
    BadLine(u32, LineCause),
    /// The phase would begin before the one before it.
    FallingMoment(u32),
    /// The phase has a compaction already.
    TwoCompactors(u32),
    /// The upload is of a block that was not declared.
    UnknownBlock(u32),
    /// The ULID was declared before.
    BlockChanged(u32),
    /// The rules, complete at the first phase, contradict one another.
    BadRules(u32),
    /// Some gateway has no sync line before the query.
    NeverSynced(u32),
    /// The line passes a limit.
    TooMany(u32),
    NoMemory,
}

impl ScriptRefusal {
    ghost use Rattle.std.specs.Prelude.{◌≡◌, ◌++◌, IfOk, OnOk, OnErr};
    ghost use Rattle.script_fields.specs.Wording.{refusal_text};

    /// Appends the refusal as reports word it, without a newline: `too long`, or `line N: ` and what is wrong. Want of
    /// memory has no words.
    pub fn write(self, out: &mut Vec<u8>) -> Result<(), NoMemory>
        ensures ok { OnOk result (out.new.items ≡ out.old.items ++ refusal_text self) }
        ensures err { OnErr result (out.new.items ≡ out.old.items) }
    {
        let text = self.text(*out.allocator())?;
        out.extend_from_slice(text.as_slice())?;
        Ok(())
    }

    fn text(self, alloc: Global) -> Result<Vec<u8>, NoMemory>
        ensures { IfOk result (λ text. text.items ≡ refusal_text self) }
    {
        match self {
            ScriptRefusal::TooLong => words(alloc, b"too long"),
            ScriptRefusal::BadLine(line, cause) => bad_line(alloc, line, cause),
            ScriptRefusal::FallingMoment(line) => of_line(alloc, line, b"falling moment"),
            ScriptRefusal::TwoCompactors(line) => of_line(alloc, line, b"two compactors"),
            ScriptRefusal::UnknownBlock(line) => of_line(alloc, line, b"unknown block"),
            ScriptRefusal::BlockChanged(line) => of_line(alloc, line, b"block changed"),
            ScriptRefusal::BadRules(line) => of_line(alloc, line, b"bad rules"),
            ScriptRefusal::NeverSynced(line) => of_line(alloc, line, b"never synced"),
            ScriptRefusal::TooMany(line) => of_line(alloc, line, b"too many"),
            ScriptRefusal::NoMemory => Ok(Vec::new(alloc)),
        }
    }
}

fn words(alloc: Global, words: &[u8]) -> Result<Vec<u8>, NoMemory>
    ensures { IfOk result (λ text. text.items ≡ words.now) }
{
    let mut text = Vec::new(alloc);
    text.extend_from_slice(words)?;
    Ok(text)
}

fn of_line(alloc: Global, line: u32, words: &[u8]) -> Result<Vec<u8>, NoMemory>
    ensures { IfOk result (λ text. text.items ≡ line_text line words.now) }
{
    let mut text = Vec::new(alloc);
    text.extend_from_slice(b"line ")?;
    put_unsigned(&mut text, u64::from(line))?;
    text.extend_from_slice(b": ")?;
    text.extend_from_slice(words)?;
    Ok(text)
}

fn bad_line(alloc: Global, line: u32, cause: LineCause) -> Result<Vec<u8>, NoMemory>
    ensures { IfOk result (λ text. text.items
        ≡ line_text line (codes "bad line " ++ decimal_text (cause_number cause))) }
{
    let mut text = of_line(alloc, line, b"bad line ")?;
    put_unsigned(&mut text, u64::from(cause.number()))?;
    Ok(text)
}

impl From<NoMemory> for ScriptRefusal {
    ghost from_gives = { λ _ e. e ≡ NoMemory };

    fn from(_: NoMemory) -> Self {
        ScriptRefusal::NoMemory
    }
}

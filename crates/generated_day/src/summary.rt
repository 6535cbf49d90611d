//! What a run of the generated day prints in place of a report: counts alone, since its answers have far more samples
//! than anybody reads.

ghost use Rattle.std.specs.Prelude.{◌≡◌, ◌++◌, OnOk};
ghost use Rattle.generated_day.specs.Summaries.{counted, generated_line, uploaded_line, rounds_line, cleaned_line, query_line, queries_text, summary_text};

use base::{NoMemory, put_unsigned};

/// What an answered query counts.
#[derive(Clone, Copy, Debug, PartialEq, Eq)]
pub struct QueryCounts {
    pub series: u64,
    pub samples: u64,
    pub sources: u64,
}

/// What a run of the generated day comes to.
#[derive(Clone, Copy, Debug, PartialEq, Eq)]
pub struct Summary {
    /// The script's blocks.
    pub blocks: u64,
    /// The distinct label sets under which the blocks' series are seen.
    pub series: u64,
    /// The blocks' samples.
    pub samples: u64,
    /// The uploads that put their block.
    pub uploaded: u64,
    /// The rounds of compaction.
    pub rounds: u64,
    /// The blocks that the rounds made.
    pub compacted: u64,
    /// The marks that the rounds put on covered blocks.
    pub collected: u64,
    /// The blocks that the cleanings deleted.
    pub cleaned: u64,
    /// The blocks without a meta that the cleanings deleted.
    pub partials: u64,
    /// The query before the rounds.
    pub first: QueryCounts,
    /// The query after the rounds.
    pub second: QueryCounts,
    /// The query after the cleaning.
    pub third: QueryCounts,
}

impl Summary {
    ghost use Rattle.std.specs.Prelude.{◌≡◌, ◌++◌, OnOk};
    ghost use Rattle.generated_day.specs.Summaries.{summary_text};

    /// Appends the summary's lines, or a part of them where memory runs out.
    #[tactic(auto, unfolding(crate::specs::Summaries::summary_text))]
    pub fn write(&self, out: &mut Vec<u8>) -> Result<(), NoMemory>
        ensures { OnOk result (out.new.items ≡ out.old.items ++ summary_text self.now) }
    {
        put_generated(out, *self)?;
        put_uploaded(out, *self)?;
        put_rounds(out, *self)?;
        put_cleaned(out, *self)?;
        put_queries(out, *self)
    }
}

/// Appends words and a number behind them.
#[tactic(auto, unfolding(crate::specs::Summaries::counted))]
fn put_counted(out: &mut Vec<u8>, words: &[u8], number: u64) -> Result<(), NoMemory>
    ensures { OnOk result (out.new.items ≡ out.old.items ++ counted words.now number) }
{
    out.extend_from_slice(words)?;
    put_unsigned(out, number)
}

#[tactic(auto, unfolding(crate::specs::Summaries::generated_line))]
fn put_generated(out: &mut Vec<u8>, summary: Summary) -> Result<(), NoMemory>
    ensures { OnOk result (out.new.items ≡ out.old.items ++ generated_line summary) }
{
    put_counted(out, b"generated blocks ", summary.blocks)?;
    put_counted(out, b" series ", summary.series)?;
    put_counted(out, b" samples ", summary.samples)?;
    out.push(b'\n')?;
    Ok(())
}

#[tactic(auto, unfolding(crate::specs::Summaries::uploaded_line))]
fn put_uploaded(out: &mut Vec<u8>, summary: Summary) -> Result<(), NoMemory>
    ensures { OnOk result (out.new.items ≡ out.old.items ++ uploaded_line summary) }
{
    put_counted(out, b"uploaded ", summary.uploaded)?;
    out.push(b'\n')?;
    Ok(())
}

#[tactic(auto, unfolding(crate::specs::Summaries::rounds_line))]
fn put_rounds(out: &mut Vec<u8>, summary: Summary) -> Result<(), NoMemory>
    ensures { OnOk result (out.new.items ≡ out.old.items ++ rounds_line summary) }
{
    put_counted(out, b"rounds ", summary.rounds)?;
    put_counted(out, b" compacted ", summary.compacted)?;
    put_counted(out, b" collected ", summary.collected)?;
    out.push(b'\n')?;
    Ok(())
}

#[tactic(auto, unfolding(crate::specs::Summaries::cleaned_line))]
fn put_cleaned(out: &mut Vec<u8>, summary: Summary) -> Result<(), NoMemory>
    ensures { OnOk result (out.new.items ≡ out.old.items ++ cleaned_line summary) }
{
    put_counted(out, b"cleaned blocks ", summary.cleaned)?;
    put_counted(out, b" partials ", summary.partials)?;
    out.push(b'\n')?;
    Ok(())
}

#[tactic(auto, unfolding(crate::specs::Summaries::queries_text))]
fn put_queries(out: &mut Vec<u8>, summary: Summary) -> Result<(), NoMemory>
    ensures { OnOk result (out.new.items ≡ out.old.items ++ queries_text summary) }
{
    put_query(out, 1, summary.first)?;
    put_query(out, 2, summary.second)?;
    put_query(out, 3, summary.third)
}

#[tactic(auto, unfolding(crate::specs::Summaries::query_line))]
fn put_query(out: &mut Vec<u8>, number: u64, counts: QueryCounts) -> Result<(), NoMemory>
    ensures { OnOk result (out.new.items ≡ out.old.items ++ query_line number counts) }
{
    put_counted(out, b"query ", number)?;
    put_counted(out, b" series ", counts.series)?;
    put_counted(out, b" samples ", counts.samples)?;
    put_counted(out, b" sources ", counts.sources)?;
    out.push(b'\n')?;
    Ok(())
}

//! The numbers to which the activities of a run add up.

ghost use Rattle.std.specs.Prelude.{◌≡◌, ◌++◌, OnOk};
ghost use Rattle.report_lines.specs.Tallies.{AddsUp, IsOneMore, counts_in, counts_of};

use base::NoMemory;
use generated_day::QueryCounts;
use label_sets::sample_count;
use querier::Answer;
use script_running::{Came, CleanEnd, CompactEnd, Outcome, QueryOutcome, Stop, UploadEnd};

/// What activities add up to. A number stands still at the end of 64 bits.
#[derive(Clone, Copy, Debug, PartialEq, Eq)]
pub struct Sums {
    /// The uploads that put their block.
    pub uploaded: u64,
    /// The rounds of compaction.
    pub rounds: u64,
    /// The blocks that the rounds made.
    pub compacted: u64,
    /// The marks that the rounds put on covered blocks.
    pub collected: u64,
    /// The blocks that the cleanings deleted.
    pub cleaned: u64,
    /// The blocks without a meta that the cleanings deleted.
    pub partials: u64,
}

/// What nothing adds up to.
pub(crate) const NOTHING: Sums = Sums {
    uploaded: 0,
    rounds: 0,
    compacted: 0,
    collected: 0,
    cleaned: 0,
    partials: 0,
};

impl Sums {
    /// What both add up to.
    pub(crate) fn plus(self, more: Sums) -> Sums
        ensures { AddsUp self more result }
    {
        Sums {
            uploaded: self.uploaded.saturating_add(more.uploaded),
            rounds: self.rounds.saturating_add(more.rounds),
            compacted: self.compacted.saturating_add(more.compacted),
            collected: self.collected.saturating_add(more.collected),
            cleaned: self.cleaned.saturating_add(more.cleaned),
            partials: self.partials.saturating_add(more.partials),
        }
    }
}

/// What one activity adds.
pub(crate) fn added_by(outcome: &Outcome) -> Sums
    ensures { IsOneMore outcome.now result }
{
    match outcome {
        Came::Upload(Stop::Ended(UploadEnd::Done(_))) => uploads(1),
        Came::Compact(
            Stop::Ended(
                CompactEnd::Done {
                    collected,
                    compacted,
                    ..
                },
            ),
        ) => round(*compacted, *collected),
        Came::Compact(_) => round(0, 0),
        Came::Clean(Stop::Ended(CleanEnd::Done { blocks, partials })) => {
            cleaning(*blocks, *partials)
        }
        _ => uploads(0),
    }
}

fn uploads(count: u64) -> Sums
    ensures { result
        ≡ record {
          uploaded = count;
          rounds = 0;
          compacted = 0;
          collected = 0;
          cleaned = 0;
          partials = 0;
        } }
{
    Sums {
        uploaded: count,
        ..NOTHING
    }
}

fn round(compacted: u64, collected: u64) -> Sums
    ensures { result
        ≡ record {
          uploaded = 0;
          rounds = 1;
          compacted = compacted;
          collected = collected;
          cleaned = 0;
          partials = 0;
        } }
{
    Sums {
        rounds: 1,
        compacted,
        collected,
        ..NOTHING
    }
}

fn cleaning(cleaned: u64, partials: u64) -> Sums
    ensures { result
        ≡ record {
          uploaded = 0;
          rounds = 0;
          compacted = 0;
          collected = 0;
          cleaned = cleaned;
          partials = partials;
        } }
{
    Sums {
        cleaned,
        partials,
        ..NOTHING
    }
}

/// Appends what an answered query counts.
pub(crate) fn put_counts(out: &mut Vec<QueryCounts>, outcome: &Outcome) -> Result<(), NoMemory>
    ensures { OnOk result (out.new.items ≡ out.old.items ++ counts_in outcome.now) }
{
    match outcome {
        Came::Query(QueryOutcome::Answer(answer, _)) => {
            out.push(counts_of(answer))?;
            Ok(())
        }
        _ => Ok(()),
    }
}

fn counts_of(answer: &Answer) -> QueryCounts
    ensures { result ≡ counts_of answer.now }
{
    QueryCounts {
        series: answer.series.len() as u64,
        samples: sample_count(answer.series.members()),
        sources: answer.sources.len() as u64,
    }
}

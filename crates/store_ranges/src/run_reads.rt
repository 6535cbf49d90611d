//! The reads of runs of series.
ghost use Rattle.std.specs.Prelude.{◌≡◌, ◌+◌, ◌*◌, ◌^◌, ◌<◌, ◌≤◌, map, All, length, slice_index, Some, None, IfOk};
ghost use Rattle.std.specs.List.Sorted.{IsStrictlyIncreasing};
ghost use Rattle.store_ranges.specs.Stretches.{stretch_at, IsSpanOf};
ghost use Rattle.store_ranges.specs.IndexRanges.{behind, run_end, run_of};
ghost use Rattle.store_ranges.specs.Asking.{piece_of};
ghost use Rattle.store_ranges.specs.ToRead.{run_read, AreRunsToRead};

use crate::run_read::RunRead;
use crate::sections::Sections;
use crate::{ByteRange, Span, end_of_place, number_behind, runs_of_series};
use base::NoMemory;
use index_parts::SERIES_UNIT;
use std::alloc::Global;
use wire_bytes::NumberList;

/// The runs of series with these numbers, which ascend, with the range of each.
pub fn runs_to_read(
    alloc: Global,
    sections: Sections,
    all: &[u64],
    numbers: &[u64],
) -> Result<Vec<RunRead>, NoMemory>
    requires all_rise { IsStrictlyIncreasing all.now }
    requires all_small { All (λ n. n < 2 ^ 32) all.now }
    requires rise { IsStrictlyIncreasing numbers.now }
    requires small { All (λ n. n < 2 ^ 32) numbers.now }
    ensures { IfOk result
        (λ runs. AreRunsToRead sections.toc sections.size all.now numbers.now runs.items) }
{
    let spans = runs_of_series(alloc, all, numbers)?;
    all_runs(alloc, sections, all, numbers, &spans)
}

fn all_runs(
    alloc: Global,
    sections: Sections,
    all: &[u64],
    numbers: &[u64],
    spans: &[Span],
) -> Result<Vec<RunRead>, NoMemory>
    requires all_rise { IsStrictlyIncreasing all.now }
    requires all_small { All (λ n. n < 2 ^ 32) all.now }
    requires rise { IsStrictlyIncreasing numbers.now }
    requires small { All (λ n. n < 2 ^ 32) numbers.now }
    requires within { All (IsSpanOf numbers.now) spans.now }
    ensures { IfOk result
        (λ runs. map run_read runs.items
        ≡ map (run_of sections.toc sections.size all.now)
        (map (stretch_at numbers.now) spans.now)) }
{
    let mut runs = Vec::new(alloc);
    for span in spans {
        runs.push(run_to_read(alloc, sections, all, numbers, *span)?)?;
    }
    Ok(runs)
}

fn run_to_read(
    alloc: Global,
    sections: Sections,
    all: &[u64],
    numbers: &[u64],
    span: Span,
) -> Result<RunRead, NoMemory>
    requires all_rise { IsStrictlyIncreasing all.now }
    requires all_small { All (λ n. n < 2 ^ 32) all.now }
    requires rise { IsStrictlyIncreasing numbers.now }
    requires small { All (λ n. n < 2 ^ 32) numbers.now }
    requires within { IsSpanOf numbers.now span }
    ensures { IfOk result
        (λ run. run_read run ≡ run_of sections.toc sections.size all.now
        (stretch_at numbers.now span)) }
{
    let from = SERIES_UNIT * numbers[span.start];
    let end = end_of_run(sections, all, numbers[span.end - 1]);
    Ok(RunRead {
        range: ByteRange {
            from,
            len: end.saturating_sub(from),
        },
        numbers: NumberList::from_vec(Vec::from_slice(alloc, &numbers[span.start..span.end])?),
    })
}

/// Where a run ends whose last series has this number.
fn end_of_run(sections: Sections, all: &[u64], last: u64) -> u64
    requires all_rise { IsStrictlyIncreasing all.now }
    requires all_small { All (λ n. n < 2 ^ 32) all.now }
    requires small { last < 2 ^ 32 }
    ensures { result ≡ run_end sections.toc sections.size all.now last }
{
    match number_behind(all, last) {
        Some(next) => SERIES_UNIT * next,
        None => end_of_place(&sections.toc, sections.size, SERIES_UNIT * last),
    }
}

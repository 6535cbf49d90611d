//! The summary of a run of the generated day.

ghost use Rattle.std.specs.Prelude.{◌≡◌, ◌++◌, ◌^◌, ◌-◌, min, List, [], ◌∷◌, length, slice_index_or, IfOk, OnOk};
ghost use Rattle.std.specs.List.{sum_by};
ghost use Rattle.label_sets.specs.declared.label.Label.{Label};
ghost use Rattle.script_running.specs.Outcomes.{Outcome};
ghost use Rattle.report_lines.specs.Summed.{HasEach, IsSummary, all_seen, each_once, no_counts, own_series, samples_in, seen_in};
ghost use Rattle.report_lines.specs.Tallies.{AreSums, answers_in};

use crate::Sums;
use base::NoMemory;
use generated_day::{QueryCounts, Summary};
use label_sets::{LabelSet, Series, TextList, final_labels, sample_count};
use script_core::{Block, Body, Script};
use std::alloc::Global;
use std::collections::BTreeSet;

/// The summary, by the script and by what its activities add up to.
pub(crate) fn summary_of(
    alloc: Global,
    script: &Script,
    sums: Sums,
    answers: &[QueryCounts],
) -> Result<Summary, NoMemory>
    ensures { (outcomes : List Outcome) → AreSums sums outcomes
        → answers.now ≡ answers_in outcomes → IfOk result (IsSummary script.now outcomes) }
{
    let series = count_series(alloc, script)?;
    Ok(Summary {
        blocks: script.blocks.len() as u64,
        series,
        samples: count_samples(script.blocks.members()),
        uploaded: sums.uploaded,
        rounds: sums.rounds,
        compacted: sums.compacted,
        collected: sums.collected,
        cleaned: sums.cleaned,
        partials: sums.partials,
        first: counts_at(answers, 0),
        second: counts_at(answers, 1),
        third: counts_at(answers, 2),
    })
}

/// What the answered query at a place counts; nothing, where fewer were answered.
fn counts_at(answers: &[QueryCounts], place: usize) -> QueryCounts
    ensures { result ≡ slice_index_or answers.now place no_counts }
{
    match answers.get(place) {
        Some(counts) => *counts,
        None => QueryCounts {
            series: 0,
            samples: 0,
            sources: 0,
        },
    }
}

/// Under how many label sets the script's series are seen.
fn count_series(alloc: Global, script: &Script) -> Result<u64, NoMemory>
    ensures { IfOk result (λ count. count ≡ length (each_once (all_seen script.now))) }
{
    let mut seen = BTreeSet::new(alloc);
    for block in script.blocks.members() {
        put_seen(alloc, &mut seen, block, &script.rules.replicas)?;
    }
    Ok(seen.len() as u64)
}

/// Adds the label sets under which the series of a block are seen.
fn put_seen(
    alloc: Global,
    seen: &mut BTreeSet<LabelSet>,
    block: &Block,
    replicas: &TextList,
) -> Result<(), NoMemory>
    ensures { (sets : List (List Label)) → HasEach seen.old.keys sets
        → OnOk result (HasEach seen.new.keys (sets ++ seen_in replicas.now block.now)) }
{
    for series in own_series(&block.body) {
        let labels = final_labels(alloc, &series.labels, &block.labels, replicas)?;
        put_one(seen, labels)?;
    }
    Ok(())
}

fn put_one(seen: &mut BTreeSet<LabelSet>, labels: LabelSet) -> Result<(), NoMemory>
    ensures { (sets : List (List Label)) → HasEach seen.old.keys sets
        → OnOk result (HasEach seen.new.keys (sets ++ labels ∷ [])) }
{
    seen.insert(labels)?;
    Ok(())
}

/// The series that the script itself has for a block.
fn own_series(body: &Body) -> &[Series]
    ensures { result.now ≡ own_series body.now }
{
    match body {
        Body::Inline { series, .. } => series.members(),
        Body::OnShelf => &[],
    }
}

/// How many samples the script itself has for its blocks.
fn count_samples(blocks: &[Block]) -> u64
    ensures { result ≡ min (sum_by samples_in blocks.now) (2 ^ 64 - 1) }
{
    let mut count = 0u64;
    for block in blocks {
        count = count.saturating_add(sample_count(own_series(&block.body)));
    }
    count
}

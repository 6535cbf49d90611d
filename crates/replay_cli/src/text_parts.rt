//! The lines of series, put in parts by threads beside each other.

ghost use Rattle.std.specs.Prelude.{◌≡◌, ◌++◌, ◌≤◌, ◌<◌, ℕ, [], Ok, IfOk, OnOk, length, slice_index_or};
ghost use Rattle.std.specs.List.{All, flat_map};
ghost use Rattle.call_verdicts.specs.report_lines.specs.Reports.{series_line};
ghost use Rattle.replay_cli.specs.TextParts.{IsPut, series_in};

use base::NoMemory;
use call_verdicts::report_lines::{make_room, put_all_series};
use label_sets::{Series, sample_count};
use phase_runner::{for_each_beside, processors};
use std::alloc::Global;
use std::mem;
use std::thread::Threads;

/// Lines of fewer samples are put sooner than threads are made.
const LEAST_SAMPLES: u64 = 100_000;

/// As the parts are copied one after another, more of them gain nothing.
const MOST_PARTS: usize = 16;

/// Puts a line for each series, in at most as many threads as there are processors. Where there are fewer than two series or processors,
/// or few samples, or no memory for the list of parts, no thread is started.
pub(crate) fn put_beside<T: Threads + Sync>(
    rt: &T,
    out: &mut Vec<u8>,
    series: &[Series],
) -> Result<(), NoMemory>
    ensures { OnOk result (out.new.items ≡ out.old.items ++ flat_map series_line series.now) }
{
    if series.len() < 2 || sample_count(series) < LEAST_SAMPLES {
        return put_all_series(out, series);
    }
    let threads = processors(rt).min(MOST_PARTS);
    if threads < 2 {
        return put_all_series(out, series);
    }
    let Ok(mut parts) = parts_of(*out.allocator(), series, threads) else {
        return put_all_series(out, series);
    };
    make_room(out, series);
    put_parts(rt, out, parts.as_mut_slice(), threads)
}

/// Puts the lines of each part, each in a thread of its own: those of the first part behind the text itself, in whose room they stay, and
/// those of the others beside it, from where they are copied.
fn put_parts<T: Threads + Sync>(
    rt: &T,
    out: &mut Vec<u8>,
    parts: &mut [TextPart<'_>],
    threads: usize,
) -> Result<(), NoMemory>
    requires threads { 0 < threads }
    requires some { 0 < length parts.old }
    requires empty { All (λ part. part.text.items ≡ []) parts.old }
    ensures { OnOk result
        (out.new.items ≡ out.old.items ++ flat_map series_line (flat_map series_in parts.old)) }
{
    parts[0].trade(out);
    put_each(rt, parts, threads);
    parts[0].trade(out);
    join(out, parts)
}

/// Puts the lines of each part behind its text, in at most so many threads.
fn put_each<T: Threads + Sync>(rt: &T, parts: &mut [TextPart<'_>], threads: usize)
    requires { 0 < threads }
    ensures { (i : ℕ) (d : _) → i < length parts.old
        → IsPut (slice_index_or parts.old i d) (slice_index_or parts.new i d) }
{
    for_each_beside(rt, parts, threads, &|_, part| { part.put() });
}

/// Appends the texts of all parts, unless memory ran out in one of them.
fn join(out: &mut Vec<u8>, parts: &[TextPart<'_>]) -> Result<(), NoMemory>
    ensures came { OnOk result (All (λ part. part.came ≡ Ok tt) parts.now) }
    ensures text { OnOk result
        (out.new.items ≡ out.old.items ++ flat_map (λ part. part.text.items) parts.now) }
{
    for part in parts {
        part.give(out)?;
    }
    Ok(())
}

/// Some of the series, and a text behind which their lines are put.
#[derive(Drop)]
struct TextPart<'a> {
    series: &'a [Series],
    text: Vec<u8>,
    came: Result<(), NoMemory>,
}

impl<'a> TextPart<'a> {
    /// Nothing was put yet.
    fn new(alloc: Global, series: &'a [Series]) -> TextPart<'a>
        ensures series { result.series ≡ series.entry }
        ensures empty { result.text.items ≡ [] }
    {
        TextPart {
            series,
            text: Vec::new(alloc),
            came: Ok(()),
        }
    }

    /// Puts the lines.
    fn put(&mut self)
        ensures { IsPut self.old self.new }
    {
        self.came = put_all_series(&mut self.text, self.series);
    }

    /// Appends its text, unless memory ran out in it.
    fn give(&self, out: &mut Vec<u8>) -> Result<(), NoMemory>
        ensures came { OnOk result (self.now.came ≡ Ok tt) }
        ensures text { OnOk result (out.new.items ≡ out.old.items ++ self.now.text.items) }
    {
        self.came?;
        out.extend_from_slice(&self.text)?;
        Ok(())
    }

    /// Gives its text for another.
    fn trade(&mut self, text: &mut Vec<u8>)
        ensures given { text.new ≡ self.old.text }
        ensures taken { self.new.text ≡ text.old }
        ensures series { self.new.series ≡ self.old.series }
        ensures came { self.new.came ≡ self.old.came }
    {
        mem::swap(&mut self.text, text);
    }
}

/// Cuts series into so many parts, each of about equally many samples.
fn parts_of(alloc: Global, series: &[Series], count: usize) -> Result<Vec<TextPart<'_>>, NoMemory>
    ensures some { IfOk result (λ parts. 0 < length parts.items) }
    ensures whole { IfOk result (λ parts. flat_map series_in parts.items ≡ series.now) }
    ensures empty { IfOk result (λ parts. All (λ part. part.text.items ≡ []) parts.items) }
{
    let mut parts = Vec::with_capacity(alloc, count)?;
    let mut left = series;
    for others in (1..count).rev() {
        let (part, after) = left.split_at(first_share(left, others as u64 + 1));
        parts.push(TextPart::new(alloc, part))?;
        left = after;
    }
    parts.push(TextPart::new(alloc, left))?;
    Ok(parts)
}

/// How many series, from the first on, have one of so many equal shares of the samples.
fn first_share(series: &[Series], shares: u64) -> usize
    requires { 0 < shares }
    ensures { result ≤ length series.now }
{
    let wanted = sample_count(series) / shares;
    let mut samples = 0u64;
    for (place, one) in series.iter().enumerate() {
        if wanted <= samples {
            return place;
        }
        samples = samples.saturating_add(one.samples.len() as u64);
    }
    series.len()
}

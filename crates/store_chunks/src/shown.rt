//! The samples that are asked for, under their final labels.
ghost use Rattle.std.specs.Prelude.{◌≡◌, [], ◌∷◌, ◌++◌, slice_get, IfOk, OnOk};
ghost use Rattle.std.specs.Option.{option_copied};
ghost use Rattle.std.specs.List.{filter, flat_map};
ghost use Rattle.std.specs.List.Sorted.{IsStrictlyIncreasing};
ghost use Rattle.label_sets.specs.Triples.{triples_under, triples_of};
ghost use Rattle.store_ranges.specs.ChunkRanges.{meets};
ghost use Rattle.store_chunks.specs.Taken.{samples_of, shown};
ghost use Rattle.store_ranges.specs.Asking.{query_asked, block_asked};
ghost use Rattle.store_chunks.specs.ChunksRead.{reads_apart, references_apart};

use crate::places::meets;
use base::NoMemory;
use index_parts::{ChunkPlace, IndexSeries, reference_of};
use label_sets::{Sample, SampleList, Series, SeriesList, final_labels};
use store_ranges::Asked;

/// The samples of a chunk that was read, by its reference.
#[derive(Drop)]
pub(crate) struct ChunkRead {
    pub reference: u64,
    pub samples: SampleList,
}

/// The chunk at a place of the list.
fn chunk_at(found: &[ChunkRead], there: usize) -> Option<&ChunkRead>
    ensures { option_copied result ≡ slice_get found.now there }
{
    found.get(there)
}

/// The samples that were read at a place, among chunks that ascend by their references.
fn samples_of<'a>(found: &'a [ChunkRead], place: &ChunkPlace) -> &'a [Sample]
    ensures { IsStrictlyIncreasing (references_apart found.now)
        → result.now ≡ samples_of (reads_apart found.now) place.now }
{
    let reference = reference_of(*place);
    let there = found.partition_point(|one| one.reference < reference);
    match chunk_at(found, there) {
        Some(one) => if one.reference == reference {
            one.samples.members()
        } else {
            &[]
        },
        None => &[],
    }
}

/// The samples of a series that were read, under its final labels.
fn shown(asked: &Asked<'_>, series: &IndexSeries, found: &[ChunkRead]) -> Result<Series, NoMemory>
    ensures { IsStrictlyIncreasing (references_apart found.now)
        → IfOk result (λ made. triples_under made.labels made.samples
        ≡ shown (query_asked asked.now) (block_asked asked.now)
        (reads_apart found.now) series.now) }
{
    let labels = final_labels(
        asked.alloc,
        &series.labels,
        &asked.meta.labels,
        asked.replicas,
    )?;
    let samples = samples_read(asked, series.chunks.members(), found)?;
    Ok(Series { labels, samples })
}

/// The samples that were read at those of these places that meet the range.
fn samples_read(
    asked: &Asked<'_>,
    chunks: &[ChunkPlace],
    found: &[ChunkRead],
) -> Result<SampleList, NoMemory>
    ensures { IsStrictlyIncreasing (references_apart found.now)
        → IfOk result (λ samples. samples
        ≡ flat_map (samples_of (reads_apart found.now))
        (filter (meets asked.now.low asked.now.high) chunks.now)) }
{
    let room = count_read(asked, chunks, found);
    let mut samples: Vec<Sample> = Vec::with_capacity(asked.alloc, room)?;
    for place in chunks {
        add_samples(asked, place, found, &mut samples)?;
    }
    Ok(SampleList::from_vec(samples))
}

/// How many samples were read at the places that meet the range.
fn count_read(asked: &Asked<'_>, chunks: &[ChunkPlace], found: &[ChunkRead]) -> usize {
    let mut count = 0usize;
    for place in chunks {
        if meets(asked, place) {
            count = count.saturating_add(samples_of(found, place).len());
        }
    }
    count
}

/// Adds the samples that were read at a place, where it meets the range.
fn add_samples(
    asked: &Asked<'_>,
    place: &ChunkPlace,
    found: &[ChunkRead],
    samples: &mut Vec<Sample>,
) -> Result<(), NoMemory>
    ensures { IsStrictlyIncreasing (references_apart found.now)
        → OnOk result (samples.new.items ≡ samples.old.items
        ++ flat_map (samples_of (reads_apart found.now))
        (filter (meets asked.now.low asked.now.high) (place.now ∷ []))) }
{
    if meets(asked, place) {
        samples.extend_from_slice(samples_of(found, place))?;
    }
    Ok(())
}

/// The samples of these series that were read, each under its final labels, where the chunks were
/// read each by itself.
pub(crate) fn shown_apart(
    asked: &Asked<'_>,
    series: &[IndexSeries],
    found: &[ChunkRead],
) -> Result<SeriesList, NoMemory>
    ensures { IsStrictlyIncreasing (references_apart found.now)
        → IfOk result (λ made. triples_of made
        ≡ flat_map (shown (query_asked asked.now) (block_asked asked.now)
        (reads_apart found.now)) series.now) }
{
    let mut made = Vec::new(asked.alloc);
    for one in series {
        made.push(shown(asked, one, found)?)?;
    }
    Ok(SeriesList::from_vec(made))
}

//! Samples under one label set: what a script's block is declared with, and what a query is answered with. Both are
//! spelled alike.

ghost use Rattle.std.specs.Prelude.{◌≡◌, ◌++◌, length, take, OnOk, OnErr};
ghost use Rattle.std.specs.List.{flat_map};
ghost use Rattle.label_sets.specs.Counts.{sample_count};
ghost use Rattle.label_sets.specs.Notation.{set_text};
ghost use Rattle.label_sets.specs.SampleText.{series_text, spaced_sample_text};

use crate::sample_text::put_samples;
use crate::{LabelSet, Sample, SampleList};
use base::{List, NoMemory, TryCopy, cut_on_err};

/// Samples under one label set.
#[derive(Drop)]
pub struct Series {
    pub labels: LabelSet,
    pub samples: SampleList,
}

/// A list of series.
pub type SeriesList = List<Series>;

impl TryCopy for Series {
    fn copy(&self) -> Result<Self, NoMemory> {
        Ok(Series {
            labels: self.labels.copy()?,
            samples: self.samples.copy()?,
        })
    }
}

impl Series {
    /// Appends the label set and then each sample after a space, with no newline.
    #[tactic(auto, unfolding(crate::specs::SampleText::series_text))]
    pub fn write(&self, out: &mut Vec<u8>) -> Result<(), NoMemory>
        ensures ok { OnOk result (out.new.items ≡ out.old.items ++ series_text self.now) }
        ensures err { OnErr result (out.new.items ≡ out.old.items) }
    {
        let start = out.len();
        let put = put_series(out, &self.labels, self.samples.members());
        cut_on_err(out, start, put)
    }
}

/// Appends a label set and samples, or a part of it where memory runs out.
fn put_series(out: &mut Vec<u8>, labels: &LabelSet, samples: &[Sample]) -> Result<(), NoMemory>
    ensures ok { OnOk result (out.new.items
        ≡ out.old.items ++ set_text labels.now ++ flat_map spaced_sample_text samples.now) }
    ensures kept { take (length out.old.items) out.new.items ≡ out.old.items }
{
    labels.write(out)?;
    put_samples(out, samples)
}

/// How many samples the series have, or the greatest number of 64 bits where they have more.
#[tactic(auto, unfolding(crate::specs::Counts::sample_count))]
pub fn sample_count(series: &[Series]) -> u64
    ensures { result ≡ sample_count series.now }
{
    let mut count = 0u64;
    for one in series {
        count = count.saturating_add(one.samples.len() as u64);
    }
    count
}

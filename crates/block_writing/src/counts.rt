ghost use Rattle.std.specs.Prelude.{◌≡◌, ◌+◌};
ghost use Rattle.block_writing.specs.Put.{fitted};

/// How many series, samples and chunks a block has so far. A count stands still at the end of 64 bits.
#[derive(Clone, Copy)]
pub(crate) struct Counts {
    pub(crate) series: u64,
    pub(crate) samples: u64,
    pub(crate) chunks: u64,
}

impl Counts {
    pub(crate) fn none() -> Counts
        ensures { result ≡ record { series = 0; samples = 0; chunks = 0 } }
    {
        Counts {
            series: 0,
            samples: 0,
            chunks: 0,
        }
    }

    /// With a chunk of so many samples more.
    pub(crate) fn with_chunk(self, samples: u16) -> Counts
        ensures { result ≡ record {
          series = self.series;
          samples = fitted (self.samples + samples);
          chunks = fitted (self.chunks + 1);
        } }
    {
        Counts {
            series: self.series,
            samples: self.samples.saturating_add(u64::from(samples)),
            chunks: self.chunks.saturating_add(1),
        }
    }

    /// With a series more.
    pub(crate) fn with_series(self) -> Counts
        ensures { result ≡ record {
          series = fitted (self.series + 1);
          samples = self.samples;
          chunks = self.chunks;
        } }
    {
        Counts {
            series: self.series.saturating_add(1),
            samples: self.samples,
            chunks: self.chunks,
        }
    }
}

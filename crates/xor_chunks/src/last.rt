use crate::window::Window;
use label_sets::Sample;

/// What the next sample is told from: the last sample, how long it came after the one before it, and the window.
#[derive(Clone, Copy)]
pub(crate) struct Last {
    pub time: i64,
    pub delta: u64,
    pub pattern: u64,
    pub window: Window,
}

impl Last {
    ghost use Rattle.std.specs.Prelude.{◌≡◌};
    ghost use Rattle.xor_chunks.specs.Known.{state_of};
    ghost use Rattle.xor_chunks.specs.Samples.{of_first, sample_of};

    /// The first sample, which comes after none.
    pub(crate) fn of_first(first: Sample) -> Last
        ensures { state_of result ≡ of_first first }
    {
        Last {
            time: first.time,
            delta: 0,
            pattern: first.pattern,
            window: Window::whole(),
        }
    }

    /// The last sample.
    #[inline(always)]
    pub(crate) fn sample(&self) -> Sample
        ensures { result ≡ sample_of (state_of self.now) }
    {
        Sample {
            time: self.time,
            pattern: self.pattern,
        }
    }
}

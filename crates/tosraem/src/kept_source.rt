//! A source that keeps what was read of it.

ghost use Rattle.std.specs.Prelude.{◌≡◌, Some};

use bucket_core::{ReadAnswer, Source};
use std::alloc::Global;

/// Of a longer text nothing is kept.
const MOST_KEPT: usize = 16_777_216;

/// A source, and the text that was read of it, as long as that is short and there is memory for it.
#[derive(Drop)]
pub(crate) struct KeptSource<S: Source + Drop> {
    source: S,
    text: Vec<u8>,
    is_whole: bool,
}

impl<S: Source + Drop> KeptSource<S> {
    ghost use Rattle.std.specs.Prelude.{◌≡◌, IfSome, option_map, [], true};

    /// The source, of which nothing was read yet.
    pub(crate) fn new(alloc: Global, source: S) -> Self
        ensures source { result.source ≡ source }
        ensures kept { (result.text.items ≡ []) × (result.is_whole ≡ true) }
    {
        KeptSource {
            source,
            text: Vec::new(alloc),
            is_whole: true,
        }
    }

    /// What was read, unless not all of it was kept.
    pub(crate) fn text(&self) -> Option<&[u8]> {
        if self.is_whole {
            Some(self.text.as_slice())
        } else {
            None
        }
    }

    /// Keeps what was read.
    fn keep(&mut self, bytes: &[u8])
        ensures source { self.new.source ≡ self.old.source }
    {
        let is_short = bytes.len() <= MOST_KEPT && self.text.len() <= MOST_KEPT - bytes.len();
        self.is_whole = self.is_whole && is_short && self.text.extend_from_slice(bytes).is_ok();
    }
}

impl<S: Source + Drop> Source for KeptSource<S> {
    ghost told = { λ kept. S.told kept.source };

    fn read(&mut self, into: &mut [u8]) -> ReadAnswer {
        let answer = self.source.read(into);
        if let ReadAnswer::Got(count) = answer {
            self.keep(&into[..count]);
        }
        answer
    }
}

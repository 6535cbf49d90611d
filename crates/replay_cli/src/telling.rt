//! The lines of a large answer's series are put by threads beside each other.

ghost use Rattle.std.specs.Thread.{IsSync};
ghost use Rattle.replay_cli.specs.Sharing.{sync_prop};

use crate::text_parts::put_beside;
use base::NoMemory;
use call_verdicts::report_lines::SeriesWay;
use label_sets::Series;
use std::thread::Threads;

/// Beside each other, in threads.
#[derive(Drop)]
pub(crate) struct Beside<'a, T> {
    pub(crate) rt: &'a T,
}

impl<'a, T: Threads + Sync> SeriesWay for Beside<'a, T> {
    ghost can_put = { λ _. IsSync T.row };

    fn put_all(&self, out: &mut Vec<u8>, series: &[Series]) -> Result<(), NoMemory> {
        put_beside(self.rt, out, series)
    }

    ghost one_proof = { λ _. sync_prop T.row };
}

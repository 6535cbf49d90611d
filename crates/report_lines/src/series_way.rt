//! Ways to put the lines of an answer's series: one after another, or as a caller does it.

ghost use Rattle.std.specs.Prelude.{◌≡◌, ◌++◌, OnOk};
ghost use Rattle.std.specs.Coded.{Unit-prop};
ghost use Rattle.std.specs.List.{flat_map};
ghost use Rattle.report_lines.specs.Reports.{series_line};

use crate::report::put_all_series;
use base::NoMemory;
use label_sets::Series;

/// A way to put the lines of series.
pub trait SeriesWay {
    /// What has to hold for lines to be put so, for example that what threads are lent may be shared.
    ghost can_put: { Self → Type 0 };

    /// Appends a line for each series, or a part of the lines where memory runs out.
    fn put_all(&self, out: &mut Vec<u8>, series: &[Series]) -> Result<(), NoMemory>
        requires { can_put self.now }
        ensures { OnOk result (out.new.items ≡ out.old.items ++ flat_map series_line series.now) };

    /// There is one proof of it at most, so that a value may keep it.
    ghost one_proof: { (way : Self) → IsProp (can_put way) };
}

/// One after another, by the caller's own thread.
#[derive(Drop)]
pub struct InTurn;

impl SeriesWay for InTurn {
    ghost can_put = { λ _. Unit {0} };

    fn put_all(&self, out: &mut Vec<u8>, series: &[Series]) -> Result<(), NoMemory> {
        put_all_series(out, series)
    }

    ghost one_proof = { λ _. Unit-prop };
}

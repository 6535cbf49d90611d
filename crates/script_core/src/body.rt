use base::{NoMemory, TryCopy};
use label_sets::SeriesList;

/// Where the series of a declared block come from.
#[derive(Drop)]
pub enum Body {
    /// From the script's own lines: at least one series, ascending by labels, each with at least one sample, their
    /// times rising from `min_time` on and below `max_time`.
    Inline {
        min_time: i64,
        max_time: i64,
        series: SeriesList,
    },
    /// From the files that the shelf has under the block's ULID.
    OnShelf,
}

impl TryCopy for Body {
    fn copy(&self) -> Result<Self, NoMemory> {
        match self {
            Body::Inline {
                min_time,
                max_time,
                series,
            } => Ok(Body::Inline {
                min_time: *min_time,
                max_time: *max_time,
                series: series.copy()?,
            }),
            Body::OnShelf => Ok(Body::OnShelf),
        }
    }
}

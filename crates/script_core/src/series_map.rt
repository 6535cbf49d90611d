ghost use Rattle.std.specs.Prelude.{◌≡◌, map, IfOk};
ghost use Rattle.script_core.specs.State.{series_of};

use base::NoMemory;
use label_sets::{LabelSet, SampleList, Series, SeriesList};
use std::alloc::Global;
use std::collections::BTreeMap;

/// The series in ascending order of their labels.
pub(crate) fn series_list(
    alloc: Global,
    series: BTreeMap<LabelSet, SampleList>,
) -> Result<SeriesList, NoMemory>
    ensures { IfOk result (λ list. list ≡ map series_of series.entries) }
{
    let mut list = SeriesList::new(alloc);
    for (labels, samples) in series {
        list.push(Series { labels, samples })?;
    }
    Ok(list)
}

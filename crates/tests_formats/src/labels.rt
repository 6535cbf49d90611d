//! Label sets, samples and series: `set TEXT` reads a label set, `add SET NAME VALUE` adds a label,
//! `final SET EXTERNAL REPLICA` takes the final and the reduced labels, `sample TEXT` reads a sample, `series SET SAMPLE ..`
//! writes a series, and `merge SERIES|SERIES..` merges series. `newline` reads a set with a newline in a value.

mod merges;
mod series;
mod sets;

use crate::labels::merges::print_merged;
use crate::labels::series::print_series;
pub(crate) use crate::labels::series::{put_samples, samples_of};
pub(crate) use crate::labels::sets::set_of;
use crate::labels::sets::{print_added, print_final, print_set};
use crate::says::{say, show};
use label_sets::Sample;

pub(crate) fn print_call(rt: &HostRuntime, word: &str, text: &str) {
    match word {
        "set" => print_set(rt, text),
        "newline" => print_set(rt, "{a=\"x\n\"}"),
        "add" => print_added(rt, text),
        "final" => print_final(rt, text),
        "sample" => match Sample::read(text) {
            Ok(sample) => show(rt, &sample),
            Err(refusal) => show(rt, &refusal),
        },
        "series" => print_series(rt, text),
        "merge" => print_merged(rt, text),
        _ => say(rt, "no call"),
    }
}

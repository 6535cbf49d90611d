//! Rows of calls on the reader of an index. The same words serve a server's index, changed ones, those that our writer
//! made, and parts of each, so that their answers can be compared line by line.

use crate::indexes::blocks::print_block;
use crate::indexes::chunk_notation::print_chunks;
use crate::indexes::taken::print_taken;
use crate::says::{cut, cut_at, put_labels, say, show, show_of};
use index_v2::{IndexReader, IndexRefusal, IndexSeries, IndexSeriesList, LentSeries};
use std::fmt;
use wire_bytes::NumberList;

/// Prints what a call on the reader of an index gives: `open` that it is opened, `whole` its series, `count` how many these
/// are, `block FILE` these with all samples, out of a segment, `symbol NUMBER` a symbol, `postings NAME=VALUE`
/// the numbers of series, `take EXTERNAL SELECTOR` the series that a selector takes, `values NAME` the values of a name,
/// `first NAME` at which row its rows begin and how many rows there are, `row PLACE` a row with its list, `series NUMBER` a
/// series, `lent NUMBER` a copy of one whose texts the index lends, and `in FROM END NUMBER` one as it is read in these bytes.
pub(crate) fn print_reader(
    rt: &HostRuntime,
    index: &[u8],
    opened: Result<IndexReader<'_>, IndexRefusal>,
    call: &str,
) {
    match opened {
        Ok(reader) => {
            print_opened(rt, index, &reader, call);
            drop(reader);
        }
        Err(refusal) => show(rt, &refusal),
    }
}

fn print_opened(rt: &HostRuntime, index: &[u8], reader: &IndexReader<'_>, call: &str) {
    let alloc = rt.alloc();
    let (word, argument) = cut(call);
    let (name, value) = cut_at(argument, '=');
    let number = argument.parse().unwrap_or(0);
    match word {
        "whole" | "count" | "block" => print_whole(rt, reader.whole(alloc), word, argument),
        "symbol" => show(rt, &reader.symbol(number)),
        "postings" => print_numbers(rt, reader.postings(alloc, name, value)),
        "take" => print_taken(rt, index, reader, argument),
        "values" => match reader.label_values(alloc, name) {
            Ok(values) => show(rt, &values.members()),
            Err(refusal) => show(rt, &refusal),
        },
        "first" => show_of(rt, &reader.first_row(name), reader.row_count()),
        "row" => match reader.row(number as usize) {
            Some((name, value, offset)) => {
                let _ = print!(rt; "{name:?} {value:?} {offset} ");
                print_numbers(rt, reader.row_numbers(alloc, number as usize));
            }
            None => say(rt, "no row"),
        },
        "series" => print_series(rt, reader.series(alloc, number)),
        "lent" => match reader.lent_series(number, LentSeries::new(alloc)) {
            Ok(series) => print_series(rt, series.to_series(alloc)),
            Err(refusal) => show(rt, &refusal),
        },
        "in" => print_in(rt, index, reader, argument),
        _ => say(rt, "opened"),
    }
}

fn print_whole(
    rt: &HostRuntime,
    read: Result<IndexSeriesList, IndexRefusal>,
    word: &str,
    path: &str,
) {
    match read {
        Ok(list) => {
            let _ = println!(rt; "{} series", list.len());
            match word {
                "block" => print_block(rt, list.members(), path),
                "whole" => {
                    for series in list.members() {
                        print_one(rt, series);
                    }
                }
                _ => (),
            }
            drop(list);
        }
        Err(refusal) => show(rt, &refusal),
    }
}

/// Prints the labels and the chunks of a series.
fn print_one(rt: &HostRuntime, series: &IndexSeries) {
    put_labels(rt, &series.labels);
    print_chunks(rt, series.chunks.members());
}

/// Prints numbers, or why they are not read.
pub(crate) fn print_numbers<E: fmt::Debug + Drop>(rt: &HostRuntime, read: Result<NumberList, E>) {
    match read {
        Ok(numbers) => show(rt, &numbers.members()),
        Err(refusal) => show(rt, &refusal),
    }
}

fn print_series<E: fmt::Debug + Drop>(rt: &HostRuntime, read: Result<IndexSeries, E>) {
    match read {
        Ok(series) => print_one(rt, &series),
        Err(refusal) => show(rt, &refusal),
    }
}

fn print_in(rt: &HostRuntime, index: &[u8], reader: &IndexReader<'_>, argument: &str) {
    let (from, rest) = cut(argument);
    let (end, number) = cut(rest);
    let from: usize = from.parse().unwrap_or(0);
    let number: u32 = number.parse().unwrap_or(0);
    let at = from as u64;
    match index.get(from..end.parse().unwrap_or(0)) {
        Some(part) if at <= 16 * u64::from(number) => {
            print_series(rt, reader.series_in(rt.alloc(), part, at, number));
        }
        _ => say(rt, "no bytes"),
    }
}

use crate::indexes::chunk_notation::print_chunks;
use crate::indexes::reader_calls::print_numbers;
use crate::says::{cut_at, show, show_of};
use index_parts::{read_postings, read_postings_table, read_series, read_symbols};

/// Prints what is read of the section at a place, by `WORD PLACE,NUMBER`: of `symbols` and `table` how many there are, and the
/// one of the number, the numbers of `list`, and the names, the values and the chunks of the series of `raw`.
pub(crate) fn print_section(rt: &HostRuntime, index: &[u8], word: &str, argument: &str) {
    let alloc = rt.alloc();
    let (place, number) = cut_at(argument, ',');
    let place = place.parse().unwrap_or(0);
    let number = number.parse().unwrap_or(0);
    match word {
        "symbols" => match read_symbols(alloc, index, place) {
            Ok(table) => show_of(rt, &table.get(number), table.len()),
            Err(refusal) => show(rt, &refusal),
        },
        "table" => match read_postings_table(alloc, index, place) {
            Ok(table) => show_of(rt, &table.get(number), table.len()),
            Err(refusal) => show(rt, &refusal),
        },
        "list" => print_numbers(rt, read_postings(alloc, index, place)),
        _ => match read_series(alloc, index, place) {
            Ok(series) => {
                let names = series.names.members();
                let _ = print!(rt; "{names:?} {:?}", series.values.members());
                print_chunks(rt, series.chunks.members());
            }
            Err(refusal) => show(rt, &refusal),
        },
    }
}

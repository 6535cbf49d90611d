//! Texts of scripts, in the notation of `notation`. Printed is what is wrong with each. `=parts` prints all that is read of one
//! script, `=words` how reports word the refusals, and `=day NUMBER` what the generated day has.

mod day;
mod notation;
mod parts;
mod words;

use crate::says::{cut, say, show};
use crate::scripts::day::print_day;
use crate::scripts::notation::spelled;
use crate::scripts::parts::{PHASES, print_parts};
use crate::scripts::words::print_words;
use generated_day::generated_script;
use script_core::{Script, ScriptRefusal};

pub(crate) fn print_call(rt: &HostRuntime, row: &str) {
    let (word, number) = cut(row);
    match word {
        "=words" => print_words(rt),
        "=parts" => print_read(rt, word, Script::read(rt.alloc(), PHASES.as_bytes())),
        "=day" => print_read(
            rt,
            word,
            generated_script(rt.alloc(), number.parse().unwrap_or(0)),
        ),
        _ => print_read(rt, "", Script::read(rt.alloc(), &spelled(rt.alloc(), row))),
    }
}

/// Prints what the word asks of a script, or why the text is none.
fn print_read(rt: &HostRuntime, word: &str, read: Result<Script, ScriptRefusal>) {
    match &read {
        Ok(script) => match word {
            "=parts" => print_parts(rt, script),
            "=day" => print_day(rt, script),
            _ => say(rt, "a script"),
        },
        Err(refusal) => show(rt, refusal),
    }
    drop(read);
}

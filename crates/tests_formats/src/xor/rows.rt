use crate::labels::{put_samples, samples_of};
use crate::says::{cut, say, say_hex, show};
use crate::xor::segments::{print_lent, print_segment};
use chunk_files::{read_chunk, take_chunk};
use label_sets::{Sample, SampleList};
use xor_chunks::{XorRefusal, decode, decode_stored, encode, fit_a_chunk};

/// Prints what a call gives.
pub(crate) fn print_call(rt: &HostRuntime, kind: &str, text: &str) {
    match kind {
        "encode" => print_encoded(rt, samples_of(rt.alloc(), text).members()),
        "segment" => print_segment(rt, text),
        "chunk" => {
            let (place, bytes) = cut(text);
            print_bytes(rt, kind, place, bytes);
        }
        _ => print_bytes(rt, kind, "", text),
    }
}

/// Prints what bytes are read as. Those of a chunk are read at a place.
fn print_bytes(rt: &HostRuntime, kind: &str, place: &str, text: &str) {
    let Ok(bytes) = hex::decode(rt.alloc(), text) else {
        return say(rt, "no bytes");
    };
    let bytes = bytes.as_slice();
    match kind {
        "chunk" => print_lent(rt, read_chunk(bytes, place.parse().unwrap_or(0))),
        "front" => print_lent(rt, take_chunk(bytes)),
        "stored" => print_decoded(rt, decode_stored(rt.alloc(), bytes)),
        _ => print_decoded(rt, decode(rt.alloc(), bytes)),
    }
}

fn print_encoded(rt: &HostRuntime, samples: &[Sample]) {
    if fit_a_chunk(samples) {
        match encode(rt.alloc(), samples) {
            Ok(text) => say_hex(rt, text.bytes()),
            Err(_) => say(rt, "no memory"),
        }
    } else {
        say(rt, "no chunk");
    }
}

/// Prints samples, each as in a script, or why there are none.
fn print_decoded(rt: &HostRuntime, read: Result<SampleList, XorRefusal>) {
    match read {
        Ok(samples) => match samples.members() {
            [first, others @ ..] => {
                let _ = print!(rt; "{}:{:016x}", first.time, first.pattern);
                put_samples(rt, others);
                say(rt, "");
            }
            [] => say(rt, "no samples"),
        },
        Err(refusal) => show(rt, &refusal),
    }
}

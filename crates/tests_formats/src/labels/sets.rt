use crate::says::{cut, put, put_labels, say, show, tell};
use crate::texts::texts_of;
use base::{NoMemory, TryCopy};
use label_sets::{LabelSet, final_labels, reduced};
use std::alloc::Global;

/// Prints a label set as its copy is written and how many bytes it took, or why the text is none.
pub(crate) fn print_set(rt: &HostRuntime, text: &str) {
    match LabelSet::read(rt.alloc(), text) {
        Ok((labels, taken)) => {
            tell(rt, "", &taken);
            put(rt, " bytes: ");
            put_made(rt, labels.copy());
            say(rt, "");
        }
        Err(refusal) => show(rt, &refusal),
    }
}

/// Prints a set with one more label, or why the label was not added.
pub(crate) fn print_added(rt: &HostRuntime, text: &str) {
    let (set, label) = cut(text);
    let (name, value) = cut(label);
    let mut labels = set_of(rt.alloc(), set);
    match labels.add(name, value) {
        Ok(()) => {
            put_made(rt, labels.copy());
            say(rt, "");
        }
        Err(refusal) => show(rt, &refusal),
    }
}

/// Prints the final labels and the reduced labels of a set.
pub(crate) fn print_final(rt: &HostRuntime, text: &str) {
    let (own, others) = cut(text);
    let (external, replica) = cut(others);
    let own = set_of(rt.alloc(), own);
    let external = set_of(rt.alloc(), external);
    let replicas = texts_of(rt.alloc(), replica);
    put_made(rt, final_labels(rt.alloc(), &own, &external, &replicas));
    put_made(rt, reduced(rt.alloc(), &own, &external, &replicas));
    say(rt, "");
}

/// Prints a label set that was made, with no line's end behind it.
fn put_made(rt: &HostRuntime, made: Result<LabelSet, NoMemory>) {
    if let Ok(labels) = &made {
        put_labels(rt, labels);
    }
    drop(made);
}

/// The set that a text begins with, or the set without labels.
pub(crate) fn set_of(alloc: Global, text: &str) -> LabelSet {
    match LabelSet::read(alloc, text) {
        Ok((labels, _)) => labels,
        Err(_) => LabelSet::empty(alloc),
    }
}

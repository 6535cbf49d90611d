//! The objects of blocks, as they are uploaded.
use crate::checks::verdict_on;
use crate::says::{say, say_text};
use crate::verdicts::print_name;
use block_keys::{Key, Object};
use label_sets::LabelSet;

/// Prints what is shipped of the block that a row names, under its external labels.
pub(crate) fn print_shipped(rt: &HostRuntime, text: &str) {
    let (block, labels) = text.rsplit_once(' ').unwrap_or((text, ""));
    match LabelSet::read(rt.alloc(), labels) {
        Ok((external, _)) => {
            print_beside(rt, block, &external);
            drop(external);
        }
        Err(_) => say(rt, "no labels"),
    }
}

fn print_beside(rt: &HostRuntime, block: &str, external: &LabelSet) {
    let Ok(checked) = verdict_on(rt, block, false) else {
        return say(rt, "no objects");
    };
    match checked.objects(rt.alloc(), external) {
        Ok(objects) => {
            print_objects(rt, objects.members());
            drop(objects);
        }
        Err(_) => say(rt, "no objects"),
    }
}

/// Prints the name and the size of each object, and the texts of metas.
pub(crate) fn print_objects(rt: &HostRuntime, objects: &[Object]) {
    for object in objects {
        print_object(rt, object);
    }
}

fn print_object(rt: &HostRuntime, object: &Object) {
    print_name(rt, object.key);
    let bytes = object.bytes.bytes();
    let _ = println!(rt; " {}", bytes.len());
    if matches!(&object.key, Key::Meta(_)) {
        say_text(rt, bytes);
    }
}

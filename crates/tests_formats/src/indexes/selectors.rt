use crate::says::{say, show};
use crate::texts::texts_of;
use label_sets::LabelSet;
use matchers::Selector;

/// Prints whether a selector takes a set and whether it is plain, or where the set is none whether it is read, beside a replica
/// label. No label has the empty name, so it stands for none.
pub(crate) fn print_read(rt: &HostRuntime, replica: &str, text: &str, set: &str) {
    let alloc = rt.alloc();
    match Selector::read(alloc, text, &texts_of(alloc, replica)) {
        Ok(selector) => {
            match LabelSet::read(alloc, set) {
                Ok((labels, _)) => match selector.matches(&labels) {
                    Ok(is_match) => {
                        let _ = println!(rt; "taken: {is_match}, plain: {}", selector.plain());
                    }
                    Err(refusal) => show(rt, &refusal),
                },
                Err(_) => say(rt, "read"),
            }
            drop(selector);
        }
        Err(refusal) => show(rt, &refusal),
    }
}

//! The order of labels whose texts an index lends.
ghost use Rattle.std.specs.Prelude.{◌≡◌, map};
ghost use Rattle.label_sets.specs.Labels.{compare_labels, compare_sets};
ghost use Rattle.index_v2.specs.LentLabels.{as_label};

use crate::LentLabel;
use std::cmp::Ordering;

fn compare_one(one: &LentLabel<'_>, other: &LentLabel<'_>) -> Ordering
    ensures { result ≡ compare_labels (as_label one.now) (as_label other.now) }
{
    one.name.cmp(other.name).then(one.value.cmp(other.value))
}

/// The order of label sets whose texts are lent, as that of `LabelSet`.
pub fn compare_lent(one: &[LentLabel<'_>], other: &[LentLabel<'_>]) -> Ordering
    ensures { result ≡ compare_sets (map as_label one.now) (map as_label other.now) }
{
    for (place, label) in one.iter().enumerate() {
        if place >= other.len() {
            return Ordering::Greater;
        }
        let order = compare_one(label, &other[place]);
        if !order.is_eq() {
            return order;
        }
    }
    if one.len() < other.len() {
        Ordering::Less
    } else {
        Ordering::Equal
    }
}

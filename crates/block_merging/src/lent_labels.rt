//! Reduced labels whose texts a block's index lends.
ghost use Rattle.std.specs.Prelude.{◌≡◌, ◌∷◌, [], if◌then◌else◌, map, IfOk};
ghost use Rattle.std.specs.Ordering.{is_eq};
ghost use Rattle.label_sets.specs.Labels.{compare_labels, compare_sets};
ghost use Rattle.label_sets.specs.Finals.{reduced_of};
ghost use Rattle.index_v2.specs.LentLabels.{as_label};

use base::NoMemory;
use index_v2::LentLabel;
use label_sets::{LabelSet, TextList, is_among};
use std::alloc::Global;

/// Whether a label's name is neither that of an external label nor a replica label.
pub(crate) fn is_kept(label: &LentLabel<'_>, external: &LabelSet, replicas: &TextList) -> bool
    ensures { reduced_of (as_label label.now ∷ []) external.now replicas.now
        ≡ (if result then as_label label.now ∷ [] else []) }
{
    match external.value(label.name) {
        Some(_) => false,
        None => !is_among(replicas.members(), label.name),
    }
}

/// The reduced labels of a series with these labels.
pub(crate) fn reduced_lent<'a>(
    alloc: Global,
    labels: &[LentLabel<'a>],
    external: &LabelSet,
    replicas: &TextList,
) -> Result<Vec<LentLabel<'a>>, NoMemory>
    ensures { IfOk result (λ kept. map as_label kept.items
        ≡ reduced_of (map as_label labels.now) external.now replicas.now) }
{
    let mut kept = Vec::with_capacity(alloc, labels.len())?;
    for label in labels {
        if is_kept(label, external, replicas) {
            kept.push(*label)?;
        }
    }
    Ok(kept)
}

/// Lent labels without the names of the external labels and without the replica labels, in their own memory.
pub(crate) fn kept_lent<'a>(
    labels: Vec<LentLabel<'a>>,
    external: &LabelSet,
    replicas: &TextList,
) -> Vec<LentLabel<'a>>
    ensures { map as_label result.items
        ≡ reduced_of (map as_label labels.entry.items) external.now replicas.now }
{
    let mut kept = labels;
    kept.retain(|label| is_kept(label, external, replicas));
    kept
}

/// Whether a label is another one. Values are looked at first, since these differ most.
fn is_same(one: &LentLabel<'_>, other: &LentLabel<'_>) -> bool
    ensures { result ≡ is_eq (compare_labels (as_label one.now) (as_label other.now)) }
{
    one.value == other.value && one.name == other.name
}

/// Whether both are the same labels. They are looked at from their ends: there series that follow one another differ most.
pub(crate) fn are_same(one: &[LentLabel<'_>], other: &[LentLabel<'_>]) -> bool
    ensures { result ≡ is_eq (compare_sets (map as_label one.now) (map as_label other.now)) }
{
    if one.len() != other.len() {
        return false;
    }
    let mut left = one.len();
    while left > 0 {
        left -= 1;
        if !is_same(&one[left], &other[left]) {
            return false;
        }
    }
    true
}

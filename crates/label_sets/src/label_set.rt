//! What identifies a series. And under which labels a gateway shows it: with the external labels of its block, which go
//! before its own, and without the replica labels, so that the series of replicas become one.

ghost use Rattle.std.specs.Prelude.{◌≡◌, ◌<◌, ◌≤◌, ℕ, List, [], ◌∷◌, ◌++◌, if◌then◌else◌, length, take, slice_index_or, Some, None, MatchResult, IfOk, IfErr, IsErrAnd, ◌⊎◌, OnOk, OnErr};
ghost use Rattle.std.specs.Option.{option_copied};
ghost use Rattle.std.specs.List.{insert};
ghost use Rattle.std.specs.List.Sorted.{IsSortedBy};
ghost use Rattle.std.specs.Str.{IsCharBoundary};
ghost use Rattle.std.specs.Cmp.{partial_order_from_own_ties};
ghost use Rattle.std.specs.Cmp.Rules.{comparing};
ghost use Rattle.std.specs.Ordering.{is_eq, as_partial_cmp};
ghost use Rattle.std.proofs.Common.{rules};
ghost use Rattle.base.specs.Reading.{Gives};
ghost use Rattle.label_sets.specs.declared.label.Label.{Label};
ghost use Rattle.label_sets.specs.Notation.{read_set, set_text};
ghost use Rattle.label_sets.specs.SetText.{AreNamed, IsSetText};
ghost use Rattle.label_sets.specs.SetRefusals.{IsRefused};
ghost use Rattle.label_sets.specs.declared.label_refusal.LabelRefusal.{LabelRefusal};
ghost use Rattle.label_sets.specs.Counts.{members_in};
ghost use Rattle.label_sets.specs.Ordered.{placed, in_order};
ghost use Rattle.label_sets.specs.Labels.{compare_sets, IsLabelSet, value_of, names_of, has_lesser_name, added};
ghost use Rattle.label_sets.specs.Finals.{is_among, without, final_of, reduced_of};

use crate::notation::{put_labels, read_labels};
use crate::{Label, LabelRefusal, Text, TextList};
use base::{NoMemory, TryCopy};
use std::alloc::Global;
use std::cmp::Ordering;
use std::marker::Model;

/// Labels with strictly ascending names, none of which has an empty name or value.
#[derive(Debug, Drop)]
pub struct LabelSet {
    labels: Vec<Label>,
}

impl Model for LabelSet {
    ghost use Rattle.std.specs.Prelude.{List};
    ghost use Rattle.label_sets.specs.declared.label.Label.{Label};
    ghost use Rattle.label_sets.specs.Labels.{IsLabelSet};

    ghost Value = { List Label };

    ghost view = { λ s. s.labels.items };

    ghost invariant = { λ s. IsLabelSet s.labels.items };
}

impl LabelSet {
    /// The set without labels. It takes no memory.
    pub fn empty(alloc: Global) -> Self
        ensures { result ≡ [] }
    {
        LabelSet {
            labels: Vec::new(alloc),
        }
    }

    /// The labels in ascending order of their names.
    pub fn labels(&self) -> &[Label]
        ensures value { result.now ≡ self.now }
        ensures lawful { IsLabelSet self.now }
    {
        self.labels.as_slice()
    }

    /// Adds a label at its place.
    #[tactic(auto, unfolding(crate::specs::Labels::added))]
    pub fn add(&mut self, name: &str, value: &str) -> Result<(), LabelRefusal>
        ensures gives { Gives LabelRefusal.NoMemory (λ _. self.new) result
            (added self.old name.now value.now) }
        ensures err { OnErr result (self.new ≡ self.old) }
    {
        if name.is_empty() {
            return Err(LabelRefusal::EmptyName);
        }
        if value.is_empty() {
            return Err(LabelRefusal::EmptyValue);
        }
        let place = match place_of(self.labels.as_slice(), name) {
            Ok(_) => return Err(LabelRefusal::Repeated),
            Err(place) => place,
        };
        let label = new_label(*self.labels.allocator(), name, value)?;
        self.labels.insert(place, label)?;
        Ok(())
    }

    /// Reads one label set at the front of a text, and says how many bytes it took.
    pub fn read(alloc: Global, text: &str) -> Result<(LabelSet, usize), LabelRefusal>
        // What is read is a text of the set, and each text of a set is read, whatever follows, unless memory runs out.
        ensures found { IfOk result (λ read. IsSetText (take read.1 text.now) read.0) }
        ensures only { (front after : List ℕ) (set : List Label) → IsSetText front set
            → text.now ≡ front ++ after
            → MatchResult result (λ read. (read.0 ≡ set) × (read.1 ≡ length front))
            (λ e. e ≡ LabelRefusal.NoMemory) }

        // It has no more members, and takes no more bytes, than the text.
        ensures bounded { IfOk result (λ read. (members_in read.0 ≤ read.1)
            × (read.1 ≤ length text.now)) }

        // Which refusal it is.
        ensures refused { IfErr result (λ e. (e ≡ LabelRefusal.NoMemory) ⊎ IsRefused text.now e) }
        ensures exact { (refusal : LabelRefusal) → IsRefused text.now refusal
            → IsErrAnd result (λ e. (e ≡ LabelRefusal.NoMemory) ⊎ (e ≡ refusal)) }

        ensures gives { Gives LabelRefusal.NoMemory (λ read. (read.0, read.1)) result
            (read_set text.now) }
        ensures cut { IfOk result (λ read. IsCharBoundary text.now read.1) }
    {
        read_front(alloc, text)
    }

    /// Appends the set in its notation: ascending, with no spaces.
    pub fn write(&self, out: &mut Vec<u8>) -> Result<(), NoMemory>
        ensures ok { OnOk result (out.new.items ≡ out.old.items ++ set_text self.now) }
        ensures err { OnErr result (out.new.items ≡ out.old.items) }

        // What is written is a text of the set, where each name has the form of a name.
        ensures text { AreNamed self.now → IsSetText (set_text self.now) self.now }
    {
        put_labels(out, self.labels.as_slice())
    }

    /// The value under a name.
    pub fn value(&self, name: &str) -> Option<&str>
        ensures { option_copied result ≡ value_of self.now name.now }
    {
        value_at(self.labels(), name)
    }

    /// The order of label sets: label by label, by name and then by value, and a set before those that go on from it.
    pub fn compare(&self, other: &LabelSet) -> Ordering
        ensures { result ≡ compare_sets self.now other.now }
    {
        self.cmp(other)
    }
}

impl PartialEq for LabelSet {
    ghost eq = { λ one other. is_eq (compare_sets one other) };

    ghost laws = { Prim.search (comparing, rules) };

    fn eq(&self, other: &LabelSet) -> bool {
        self.cmp(other) == Ordering::Equal
    }
}

impl Eq for LabelSet {
    ghost laws = { Prim.search (comparing, rules) };
}

impl PartialOrd for LabelSet {
    ghost partial_cmp = { as_partial_cmp compare_sets };

    ghost laws = { partial_order_from_own_ties
        (Prim.search (comparing, rules)) (Prim.search (comparing, rules)) };

    fn partial_cmp(&self, other: &LabelSet) -> Option<Ordering> {
        Some(self.cmp(other))
    }
}

impl Ord for LabelSet {
    ghost cmp = { compare_sets };

    ghost total = { Prim.search (comparing, rules) };

    ghost matches_partial_cmp = { Prim.search (comparing, rules) };

    ghost matches_eq = { Prim.search (comparing, rules) };

    fn cmp(&self, other: &LabelSet) -> Ordering {
        self.labels().cmp(other.labels())
    }
}

impl TryCopy for LabelSet {
    fn copy(&self) -> Result<Self, NoMemory> {
        let mut labels = Vec::new(*self.labels.allocator());
        for label in self.labels.iter() {
            labels.push(label.copy()?)?;
        }
        Ok(LabelSet { labels })
    }
}

/// The labels under which a series is seen: the external labels, and those of its own labels whose names no external
/// label has, without the replica labels.
pub fn final_labels(
    alloc: Global,
    labels: &LabelSet,
    external: &LabelSet,
    replicas: &TextList,
) -> Result<LabelSet, NoMemory>
    ensures { IfOk result (λ made. made ≡ final_of labels.now external.now replicas.now) }
{
    let mut kept = Vec::new(alloc);
    copy_kept(&mut kept, external.labels(), &[], replicas.members())?;
    copy_kept(
        &mut kept,
        labels.labels(),
        external.labels(),
        replicas.members(),
    )?;
    sort_by_name(&mut kept)?;
    Ok(LabelSet { labels: kept })
}

/// A series' own labels without the names of the external labels and without the replica labels.
pub fn reduced(
    alloc: Global,
    labels: &LabelSet,
    external: &LabelSet,
    replicas: &TextList,
) -> Result<LabelSet, NoMemory>
    ensures value { IfOk result (λ made. made ≡ reduced_of labels.now external.now replicas.now) }

    // The final labels can be taken from the reduced ones.
    ensures joined { IfOk result (λ made.
        final_of made (without replicas.now external.now) replicas.now
        ≡ final_of labels.now external.now replicas.now) }
{
    let mut kept = Vec::new(alloc);
    copy_kept(
        &mut kept,
        labels.labels(),
        external.labels(),
        replicas.members(),
    )?;
    Ok(LabelSet { labels: kept })
}

fn read_front(alloc: Global, text: &str) -> Result<(LabelSet, usize), LabelRefusal>
    ensures gives { Gives LabelRefusal.NoMemory (λ read. (read.0, read.1)) result
        (read_set text.now) }
    ensures cut { IfOk result (λ read. IsCharBoundary text.now read.1) }
{
    let (labels, end) = read_labels(alloc, text.as_bytes())?;
    Ok((LabelSet { labels }, end))
}

fn new_label(alloc: Global, name: &str, value: &str) -> Result<Label, NoMemory>
    ensures { IfOk result (λ label. label ≡ record { name = name.now; value = value.now }) }
{
    Ok(Label {
        name: Text::from_str(alloc, name)?,
        value: Text::from_str(alloc, value)?,
    })
}

/// The place of the label with this name, or the place where it would stand.
fn place_of(labels: &[Label], name: &str) -> Result<usize, usize>
    requires { IsLabelSet labels.now }
    ensures found { IfOk result (λ i. (i < length labels.now)
        × ((d : Label)
        → value_of labels.now name.now ≡ Some (slice_index_or labels.now i d).value)) }
    ensures absent { IfErr result (λ i. (i ≤ length labels.now)
        × (value_of labels.now name.now ≡ None)
        × ((l : Label) → l.name ≡ name.now
        → insert labels.now i l ≡ placed has_lesser_name l labels.now)) }
{
    labels.binary_search_by(|label| label.name.as_str().cmp(name))
}

fn value_at<'a>(labels: &'a [Label], name: &str) -> Option<&'a str>
    requires { IsLabelSet labels.now }
    ensures { option_copied result ≡ value_of labels.now name.now }
{
    let place = place_of(labels, name).ok()?;
    Some(labels[place].value.as_str())
}

/// Whether a name is one of these, as of replica labels.
#[tactic(auto, unfolding(crate::specs::Finals::is_among))]
pub fn is_among(names: &[Text], name: &str) -> bool
    ensures { result ≡ is_among names.now name.now }
{
    names.iter().any(|one| one.as_str() == name)
}

/// Adds copies of the labels whose names are neither external labels nor replica labels.
fn copy_kept(
    kept: &mut Vec<Label>,
    labels: &[Label],
    external: &[Label],
    replicas: &[Text],
) -> Result<(), NoMemory>
    requires { IsLabelSet external.now }
    ensures { OnOk result (kept.new.items
        ≡ kept.old.items ++ reduced_of labels.now external.now replicas.now) }
{
    for label in labels {
        if is_kept(label, external, replicas) {
            kept.push(label.copy()?)?;
        }
    }
    Ok(())
}

/// Tells whether the label's name is neither that of an external label nor a replica label.
fn is_kept(label: &Label, external: &[Label], replicas: &[Text]) -> bool
    requires { IsLabelSet external.now }
    ensures { reduced_of (label.now ∷ []) external.now replicas.now
        ≡ (if result then label.now ∷ [] else []) }
{
    let name = label.name.as_str();
    match place_of(external, name) {
        Ok(_) => false,
        Err(_) => !is_among(replicas, name),
    }
}

/// Puts labels in the order of their names.
pub(crate) fn sort_by_name(labels: &mut Vec<Label>) -> Result<(), NoMemory>
    ensures ordered { OnOk result (labels.new.items ≡ in_order has_lesser_name labels.old.items) }
    ensures sorted { OnOk result (IsSortedBy has_lesser_name labels.new.items) }
{
    labels.sort_by(|one, other| one.name.cmp(&other.name))?;
    Ok(())
}

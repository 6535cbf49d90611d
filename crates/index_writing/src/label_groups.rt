//! From series to what an index lists of them: each label with the numbers of its series, and each name with its
//! values. All labels are sorted once; then neighbours that are alike make a group, by one loop for both lists.

ghost use Rattle.std.specs.Prelude.{◌≡◌, ◌++◌, map, zip, IfOk, OnOk};
ghost use Rattle.index_writing.specs.LabelGroups.{entries_of, all_entries, is_lesser_entry, grouped, row_of_entry, have_same_label, join_series, rows_of, values_of_row, have_same_name, join_values, names_of};
ghost use Rattle.label_sets.specs.Ordered.{in_order};

use base::NoMemory;
use index_parts::RawSeries;
use std::alloc::Global;
use wire_bytes::NumberList;

/// A label of a series: the symbol numbers of its name and its value, and the series' number.
#[derive(Clone, Copy, Debug, PartialEq, Eq, PartialOrd, Ord)]
pub(crate) struct Entry {
    pub name: u64,
    pub value: u64,
    pub series: u64,
}

/// A label by its symbol numbers, and the numbers of the series that have it.
#[derive(Drop)]
pub(crate) struct LabelRow {
    pub name: u64,
    pub value: u64,
    pub series: NumberList,
}

/// A name and its values by their symbol numbers.
#[derive(Drop)]
pub(crate) struct NameValues {
    pub name: u64,
    pub values: NumberList,
}

/// Adds the labels of a series.
fn add_entries(
    entries: &mut Vec<Entry>,
    names: &[u64],
    values: &[u64],
    series: u64,
) -> Result<(), NoMemory>
    ensures { OnOk result
        (entries.new.items ≡ entries.old.items ++ map
        (λ label. record { name = label.0; value = label.1; series = series })
        (zip names.now values.now)) }
{
    for (name, value) in names.iter().zip(values) {
        entries.push(Entry {
            name: *name,
            value: *value,
            series,
        })?;
    }
    Ok(())
}

/// The labels of all series.
fn entries_of(alloc: Global, series: &[RawSeries], numbers: &[u64]) -> Result<Vec<Entry>, NoMemory>
    ensures { IfOk result (λ entries. entries.items ≡ all_entries series.now numbers.now) }
{
    let mut entries = Vec::new(alloc);
    for (one, number) in series.iter().zip(numbers) {
        add_entries(
            &mut entries,
            one.names.members(),
            one.values.members(),
            *number,
        )?;
    }
    Ok(entries)
}

fn sort_entries(entries: &mut Vec<Entry>) -> Result<(), NoMemory>
    ensures { OnOk result (entries.new.items ≡ in_order is_lesser_entry entries.old.items) }
{
    entries.sort()?;
    Ok(())
}

/// What neighbours of one kind make: the first of them begins it, and it takes the next ones in.
trait Group: Drop {
    ghost use Rattle.std.specs.Prelude.{◌≡◌, true, Bool, cond, IfOk};

    type Member;

    /// The group of one member.
    ghost of: { Self.Member → Self };

    /// Two groups are of one kind.
    ghost same: { Self → Self → Bool };

    /// The group of the members of two.
    ghost join: { Self → Self → Self };

    /// The group of one member, which its neighbours may join.
    fn of(alloc: Global, member: &Self::Member) -> Result<Self, NoMemory>
        ensures { IfOk result (λ group. group ≡ of member.now) };

    /// Takes a member in if it is of the group's kind, and tells whether it is.
    fn take(&mut self, member: &Self::Member) -> Result<bool, NoMemory>
        ensures kind { IfOk result (λ taken. taken ≡ same self.old (of member.now)) }
        ensures taken { IfOk result
            (λ taken. self.new ≡ cond taken (join self.old (of member.now)) self.old) };

    /// A group is of one kind with what two make if it is of one kind with the first of them.
    ghost same_joined: { (a b c : Self) → same a (join b c) ≡ same a b };

    /// What two of one kind make is of that kind.
    ghost joined_same: { (a b c : Self) → same a b ≡ true → same (join a b) c ≡ same b c };

    ghost join_assoc: { (a b c : Self) → join (join a b) c ≡ join a (join b c) };
}

/// The groups that neighbours make, in their order.
#[tactic(auto, unfolding(crate::specs::LabelGroups::grouped))]
fn grouped<G: Group>(alloc: Global, members: &[G::Member]) -> Result<Vec<G>, NoMemory>
    ensures { IfOk result (λ groups. groups.items ≡ grouped G.same G.join (map G.of members.now)) }
{
    let mut groups = Vec::new(alloc);
    let [first, others @ ..] = members else {
        return Ok(groups);
    };
    let mut group = G::of(alloc, first)?;
    for member in others {
        if !group.take(member)? {
            groups.push(group)?;
            group = G::of(alloc, member)?;
        }
    }
    groups.push(group)?;
    Ok(groups)
}

impl Group for LabelRow {
    ghost use Rattle.std.proofs.Common.{refl, rules, append_assoc};
    ghost use Rattle.std.proofs.lemmas.Bool.Decides.{nat_tests};

    type Member = Entry;

    ghost of = { row_of_entry };

    ghost same = { have_same_label };

    ghost join = { join_series };

    fn of(alloc: Global, entry: &Entry) -> Result<Self, NoMemory> {
        let mut series = NumberList::new(alloc);
        series.push(entry.series)?;
        Ok(LabelRow {
            name: entry.name,
            value: entry.value,
            series,
        })
    }

    fn take(&mut self, entry: &Entry) -> Result<bool, NoMemory> {
        let is_same = self.name == entry.name && self.value == entry.value;
        if is_same {
            self.series.push(entry.series)?;
        }
        Ok(is_same)
    }

    ghost same_joined = { λ a b c. refl };

    ghost joined_same = { λ a b c is. Prim.search (rules, nat_tests) };

    ghost join_assoc = { λ a b c. Prim.search (rules, append_assoc) };
}

impl Group for NameValues {
    ghost use Rattle.std.proofs.Common.{refl, rules, append_assoc};
    ghost use Rattle.std.proofs.lemmas.Bool.Decides.{nat_tests};

    type Member = LabelRow;

    ghost of = { values_of_row };

    ghost same = { have_same_name };

    ghost join = { join_values };

    fn of(alloc: Global, row: &LabelRow) -> Result<Self, NoMemory> {
        let mut values = NumberList::new(alloc);
        values.push(row.value)?;
        Ok(NameValues {
            name: row.name,
            values,
        })
    }

    fn take(&mut self, row: &LabelRow) -> Result<bool, NoMemory> {
        let is_same = self.name == row.name;
        if is_same {
            self.values.push(row.value)?;
        }
        Ok(is_same)
    }

    ghost same_joined = { λ a b c. refl };

    ghost joined_same = { λ a b c is. Prim.search (rules, nat_tests) };

    ghost join_assoc = { λ a b c. Prim.search (rules, append_assoc) };
}

/// The labels of all series in order, each once with the numbers of its series.
#[tactic(auto, unfolding(crate::specs::LabelGroups::rows_of))]
pub(crate) fn rows_of(
    alloc: Global,
    series: &[RawSeries],
    numbers: &[u64],
) -> Result<Vec<LabelRow>, NoMemory>
    ensures { IfOk result (λ rows. rows.items ≡ rows_of (all_entries series.now numbers.now)) }
{
    let mut entries = entries_of(alloc, series, numbers)?;
    sort_entries(&mut entries)?;
    grouped(alloc, entries.as_slice())
}

/// The names of rows in order, each once with its values.
#[tactic(auto, unfolding(crate::specs::LabelGroups::names_of))]
pub(crate) fn names_of(alloc: Global, rows: &[LabelRow]) -> Result<Vec<NameValues>, NoMemory>
    ensures { IfOk result (λ names. names.items ≡ names_of rows.now) }
{
    grouped(alloc, rows)
}

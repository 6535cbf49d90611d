//! Where the texts of labels and of rows stand among the symbols of an index. However long the texts are, comparing these
//! numbers takes the same time: so a text is compared only as often as the index holds it.

ghost use Rattle.std.specs.Prelude.{◌≡◌, ◌<◌, ℕ, true, List, length, IfOk, IfErr};
ghost use Rattle.std.specs.Cmp.Lexicographic.{slice_cmp};
ghost use Rattle.index_parts.specs.declared.postings_row.PostingsRow.{PostingsRow};
ghost use Rattle.index_parts.specs.RowOrder.{IsRowAt, StandsAt};
ghost use Rattle.index_v2.specs.Ranks.{compare_ranks, CompareAlike};

use base::List as RanksOf;
use std::cmp::Ordering;

/// Where a name and a value stand among the symbols: the symbol of number n at 2 n + 1, and a text that is no symbol at the
/// even number between its neighbours.
#[derive(Clone, Copy, PartialEq, Eq, PartialOrd, Ord)]
pub(crate) struct Ranks {
    pub(crate) name: u64,
    pub(crate) value: u64,
}

/// The ranks of the labels of a series.
pub(crate) type RankList = RanksOf<Ranks>;

/// The order of ranks, which is that of the texts.
pub(crate) fn compare_ranks(one: &Ranks, other: &Ranks) -> Ordering
    ensures { result ≡ compare_ranks one.now other.now }
{
    one.name.cmp(&other.name).then(one.value.cmp(&other.value))
}

/// The order of lists of ranks.
pub(crate) fn compare_lists(one: &[Ranks], other: &[Ranks]) -> Ordering
    ensures { result ≡ slice_cmp compare_ranks one.now other.now }
{
    one.cmp(other)
}

/// The place of sought ranks among others that ascend, or the place where they would stand.
pub(crate) fn place_of(ranks: &[Ranks], sought: Ranks) -> Result<usize, usize>
    ensures within { IfOk result (λ place. place < length ranks.now) }
    ensures found { (rows : List PostingsRow) (name value : List ℕ)
        → CompareAlike rows ranks.now name value sought
        → IfOk result (λ place. IsRowAt rows name value place) }
    ensures absent { (rows : List PostingsRow) (name value : List ℕ)
        → CompareAlike rows ranks.now name value sought
        → IfErr result (λ place. StandsAt rows name value place) }
{
    let mut low = 0;
    let mut high = ranks.len();
    while low < high {
        let middle = low + (high - low) / 2;
        match compare_ranks(&ranks[middle], &sought) {
            Ordering::Less => low = middle + 1,
            Ordering::Equal => return Ok(middle),
            Ordering::Greater => high = middle,
        }
    }
    Err(low)
}

/// Whether sought ranks stand at a place.
fn is_at(ranks: &[Ranks], sought: Ranks, place: usize) -> bool
    ensures within { result ≡ true → place < length ranks.now }
    ensures found { result ≡ true → (rows : List PostingsRow) (name value : List ℕ)
        → CompareAlike rows ranks.now name value sought → IsRowAt rows name value place }
{
    if place >= ranks.len() {
        return false;
    }
    compare_ranks(&ranks[place], &sought).is_eq()
}

/// What `place_of` finds, which is looked for at a guess first and at the place behind it.
pub(crate) fn place_near(ranks: &[Ranks], sought: Ranks, guess: usize) -> Result<usize, usize>
    ensures within { IfOk result (λ place. place < length ranks.now) }
    ensures found { (rows : List PostingsRow) (name value : List ℕ)
        → CompareAlike rows ranks.now name value sought
        → IfOk result (λ place. IsRowAt rows name value place) }
    ensures absent { (rows : List PostingsRow) (name value : List ℕ)
        → CompareAlike rows ranks.now name value sought
        → IfErr result (λ place. StandsAt rows name value place) }
{
    if is_at(ranks, sought, guess) {
        return Ok(guess);
    }
    let next = guess.wrapping_add(1);
    if is_at(ranks, sought, next) {
        return Ok(next);
    }
    place_of(ranks, sought)
}

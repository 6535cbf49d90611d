//! Postings lists: the ascending numbers of the series that have one label. They are long, so all numbers of one are
//! decoded at once, and read again one by one only where some do not ascend and the place has to be told.

ghost use Rattle.std.specs.Prelude.{◌≡◌, ◌⊎◌, ◌≤◌, ◌*◌, List, ℕ, length, map, IfOk, IfErr, IfSome, Ok, Err, Some, MatchResult};
ghost use Rattle.std.specs.Int.{w32, from_be_bytes};
ghost use Rattle.std.specs.Ordering.{nat_cmp};
ghost use Rattle.base.specs.Order.{ComesAfter};
ghost use Rattle.base.specs.Reading.{Gives};
ghost use Rattle.base.specs.Grammar.{IsBytes};
ghost use Rattle.index_parts.specs.Turns.{InOrder};
ghost use Rattle.index_parts.specs.Postings.{IsPostings};
ghost use Rattle.index_parts.specs.PostingsReading.{posting_at, postings_at};
ghost use Rattle.index_parts.specs.ListReading.{turns_at};

use crate::PartRefusal;
use crate::fields::next_u32;
use crate::list_reading::{Member, members_of};
use crate::sections::section_of;
use base::List;
use std::alloc::Global;
use wire_bytes::{Cursor, NumberList};

/// How many bytes a number takes.
const NUMBER_SIZE: usize = 4;

impl<'a> Member<'a> for u64 {
    ghost use Rattle.std.specs.Prelude.{option_map};
    ghost use Rattle.index_parts.specs.PostingsReading.{posting_at};
    ghost use Rattle.index_parts.specs.Moves.{MovesOnTo};

    type Owned = u64;

    ghost said = { λ n. n };

    ghost reads = { posting_at };

    /// The next number, which is above the one before it.
    #[inline(always)]
    #[tactic(auto, unfolding(crate::specs::PostingsReading::posting_at))]
    fn next(cursor: &mut Cursor<'a>, before: Option<u64>) -> Result<u64, PartRefusal>
        ensures { MovesOnTo (λ n. n) cursor.new result
            (posting_at (option_map (λ n. n) before, cursor.old)) }
    {
        let place = cursor.place() as u64;
        let number = u64::from(next_u32(cursor)?);
        match before {
            Some(before) if number <= before => Err(PartRefusal::Unordered(place)),
            _ => Ok(number),
        }
    }
}

/// The numbers of four bytes each, if they ascend. Whether they do is asked behind the last of them, and no number is left out
/// of the loop, so that many are decoded at a time.
fn decoded_numbers(alloc: Global, fronts: &[[u8; 4]]) -> Result<Option<Vec<u64>>, PartRefusal>
    ensures decoded { IfOk result (λ found. IfSome found (λ numbers.
        (numbers.items ≡ map (from_be_bytes w32) fronts.now)
        × InOrder (ComesAfter nat_cmp) numbers.items)) }
    ensures refused { IfErr result (λ e. e ≡ PartRefusal.NoMemory) }
{
    let mut numbers = Vec::with_capacity(alloc, fronts.len())?;
    let mut ascend = true;
    let mut least = 0;
    for front in fronts {
        let number = u64::from(u32::from_be_bytes(*front));
        ascend = ascend & (least <= number);
        least = number + 1;
        numbers.push_reserved(number);
    }
    if ascend {
        return Ok(Some(numbers));
    }
    Ok(None)
}

/// The numbers, if as many as are asked for are there and ascend.
fn numbers_at_once(
    alloc: Global,
    count: u32,
    cursor: &Cursor<'_>,
) -> Result<Option<Vec<u64>>, PartRefusal>
    ensures read { IfOk result (λ found. IfSome found (λ numbers.
        turns_at posting_at count cursor.now ≡ Ok numbers.items)) }
    ensures refused { IfErr result (λ e. e ≡ PartRefusal.NoMemory) }
{
    let (fronts, _) = cursor.rest().as_chunks::<4>();
    let count = count as usize;
    if fronts.len() < count {
        return Ok(None);
    }
    decoded_numbers(alloc, &fronts[..count])
}

/// Reads `count` numbers, one after another where they can't be read at once, up to the first that is refused.
fn numbers_of(alloc: Global, count: u32, cursor: Cursor<'_>) -> Result<Vec<u64>, PartRefusal>
    ensures { Gives PartRefusal.NoMemory (λ numbers. numbers.items) result
        (turns_at posting_at count cursor.entry) }
{
    match numbers_at_once(alloc, count, &cursor)? {
        Some(numbers) => Ok(numbers),
        None => members_of(alloc, count, cursor, NUMBER_SIZE),
    }
}

#[tactic(auto, unfolding(crate::specs::ListReading::list_at))]
fn postings_of(alloc: Global, index: &[u8], at: u64) -> Result<NumberList, PartRefusal>
    ensures exact { Gives PartRefusal.NoMemory (λ numbers. numbers) result
        (postings_at index.now at) }
    ensures bytes { IsBytes index.now }
{
    let mut content = section_of(index, at)?;
    let count = next_u32(&mut content)?;
    Ok(List::from_vec(numbers_of(alloc, count, content)?))
}

/// Reads the postings list at a place.
pub fn read_postings(alloc: Global, index: &[u8], at: u64) -> Result<NumberList, PartRefusal>
    // What is read is what stands there, and what stands there is read.
    ensures found { IfOk result (λ numbers. IsPostings index.now at numbers) }
    ensures only { (numbers : List ℕ) → IsPostings index.now at numbers
        → (result ≡ Ok numbers) ⊎ (result ≡ Err PartRefusal.NoMemory) }

    // The first refusal.
    ensures exact { Gives PartRefusal.NoMemory (λ numbers. numbers) result
        (postings_at index.now at) }
    ensures few { IfOk result (λ numbers. 4 * length numbers ≤ length index.now) }
{
    postings_of(alloc, index, at)
}

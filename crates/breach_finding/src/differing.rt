//! How a lie is told by two numbers: the first bytes in which the reply and what is owed differ. A list of names is
//! compared as one text, in which each name ends with a byte that no text in UTF-8 has.

ghost use Rattle.std.specs.Prelude.{◌≡◌, ◌⊎◌, ◌<◌, ◌≤◌, drop, length, IfOk};
ghost use Rattle.lifecycle_core.specs.Breaches.{next_byte, text_end};
ghost use Rattle.breach_finding.specs.Told.{IsDifference, ended_names};

use base::NoMemory;
use label_sets::Text;
use std::alloc::Global;

/// The byte with which a name ends in the text of a reply.
const NAME_END: u8 = 255;

/// What counts as the byte at a text's end, as it is none.
const TEXT_END: u64 = 256;

/// The byte with which a text goes on at a place.
fn byte_at(text: &[u8], place: usize) -> u64
    ensures next { result ≡ next_byte (drop place text.now) }
    ensures byte { place < length text.now → result < text_end }
    ensures end { length text.now ≤ place → result ≡ text_end }
{
    match text.get(place) {
        Some(byte) => u64::from(*byte),
        None => TEXT_END,
    }
}

fn shorter(one: usize, other: usize) -> usize
    ensures within { result ≤ one }
    ensures also { result ≤ other }
    ensures is { (one ≡ result) ⊎ (other ≡ result) }
{
    if one < other { one } else { other }
}

/// The first bytes in which two texts differ, where a text's end counts as one too. Texts that are the same, as those of nearly all
/// replies are, are compared many bytes at a time.
#[tactic(auto, using(base::proofs::Bools::same_texts))]
pub(crate) fn first_difference(one: &[u8], other: &[u8]) -> Option<(u64, u64)>
    ensures { IsDifference one.now other.now result }
{
    if one == other {
        return None;
    }
    difference_by_bytes(one, other)
}

/// The first bytes in which two texts differ, which are sought byte by byte.
fn difference_by_bytes(one: &[u8], other: &[u8]) -> Option<(u64, u64)>
    ensures { IsDifference one.now other.now result }
{
    let count = shorter(one.len(), other.len());
    for place in 0..count {
        let (x, y) = (byte_at(one, place), byte_at(other, place));
        if x != y {
            return Some((x, y));
        }
    }
    if one.len() == other.len() {
        return None;
    }
    Some((byte_at(one, count), byte_at(other, count)))
}

/// Names, each with the byte at its end that no name has.
fn ended_text(alloc: Global, names: &[Text]) -> Result<Vec<u8>, NoMemory>
    ensures { IfOk result (λ text. text.items ≡ ended_names names.now) }
{
    let mut text = Vec::new(alloc);
    for name in names {
        text.extend_from_slice(name.as_str().as_bytes())?;
        text.push(NAME_END)?;
    }
    Ok(text)
}

/// The first bytes in which two lists of names differ as texts.
pub(crate) fn names_difference(
    alloc: Global,
    one: &[Text],
    other: &[Text],
) -> Result<Option<(u64, u64)>, NoMemory>
    ensures { IfOk result (IsDifference (ended_names one.now) (ended_names other.now)) }
{
    let shown = ended_text(alloc, one)?;
    let owed = ended_text(alloc, other)?;
    Ok(first_difference(shown.as_slice(), owed.as_slice()))
}

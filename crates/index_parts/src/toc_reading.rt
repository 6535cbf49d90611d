//! The table of contents: where each section begins. It ends the index, so a gateway that knows from the meta how long
//! the index is reads it first, and with it what to read next.

ghost use Rattle.std.specs.Prelude.{◌≡◌, IfOk, Ok};
ghost use Rattle.base.specs.Reading.{Answers};
ghost use Rattle.base.specs.Grammar.{IsBytes};
ghost use Rattle.index_parts.specs.declared.toc_reading.Toc.{Toc};
ghost use Rattle.index_parts.specs.Contents.{IsToc};
ghost use Rattle.index_parts.specs.ContentsReading.{references_at, toc_at};

use crate::PartRefusal;
use crate::fields::next_u64;
use crate::sections::summed_content;
use wire_bytes::Cursor;

/// Where the sections of an index stand. A section with 0 is absent.
#[derive(Clone, Copy, Debug, PartialEq, Eq)]
pub struct Toc {
    pub symbols: u64,
    pub series: u64,
    pub label_indices: u64,
    pub label_offsets: u64,
    pub postings: u64,
    pub postings_table: u64,
}

/// How many bytes the references and their sum take.
pub const CONTENTS_SIZE: usize = 52;

/// How many bytes the references take.
const REFERENCES: u64 = 48;

#[tactic(auto, unfolding(crate::specs::ContentsReading::references_at))]
fn references_of(mut content: Cursor<'_>) -> Result<Toc, PartRefusal>
    ensures { Answers (λ toc. toc) result (references_at content.entry) }
{
    Ok(Toc {
        symbols: next_u64(&mut content)?,
        series: next_u64(&mut content)?,
        label_indices: next_u64(&mut content)?,
        label_offsets: next_u64(&mut content)?,
        postings: next_u64(&mut content)?,
        postings_table: next_u64(&mut content)?,
    })
}

#[tactic(auto, unfolding(crate::specs::ContentsReading::toc_at))]
fn toc_of(index: &[u8]) -> Result<Toc, PartRefusal>
    ensures exact { Answers (λ toc. toc) result (toc_at index.now) }
    ensures bytes { IsBytes index.now }
{
    if index.len() < CONTENTS_SIZE {
        return Err(PartRefusal::Short(0));
    }
    let place = index.len() - CONTENTS_SIZE;
    references_of(summed_content(index, place, place as u64, REFERENCES)?)
}

/// Reads the table of contents, the last 52 bytes of an index. Of fewer bytes the refusal has the place 0.
pub fn read_toc(index: &[u8]) -> Result<Toc, PartRefusal>
    // What is read is what stands there, and what stands there is read.
    ensures found { IfOk result (λ toc. IsToc index.now toc) }
    ensures only { (toc : Toc) → IsToc index.now toc → result ≡ Ok toc }

    // The first refusal.
    ensures exact { Answers (λ toc. toc) result (toc_at index.now) }
{
    toc_of(index)
}

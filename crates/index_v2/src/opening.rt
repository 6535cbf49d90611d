ghost use Rattle.std.specs.Prelude.{◌≡◌, Ok, Err};
ghost use Rattle.base.specs.Reading.{Answers};
ghost use Rattle.index_v2.specs.Opening.{refused_in, refused_of, refused_contents, contents_at};

use crate::IndexRefusal;
use index_parts::{LEAST_SIZE, MAGIC, PartRefusal, Toc, VERSION, read_toc};

/// A refusal of a part, as that of its section.
pub(crate) fn refused_in(section: u8, refusal: PartRefusal) -> IndexRefusal
    ensures { result ≡ refused_in section refusal }
{
    match refusal {
        PartRefusal::NoMemory => IndexRefusal::NoMemory,
        refusal => IndexRefusal::BadSection(section, refusal),
    }
}

/// A refusal of a part, as that of a series.
pub(crate) fn refused_of(number: u32, refusal: PartRefusal) -> IndexRefusal
    ensures { result ≡ refused_of number refusal }
{
    match refusal {
        PartRefusal::NoMemory => IndexRefusal::NoMemory,
        refusal => IndexRefusal::BadSeries(number, refusal),
    }
}

fn refused_contents(refusal: PartRefusal) -> IndexRefusal
    ensures { result ≡ refused_contents refusal }
{
    match refusal {
        PartRefusal::BadSum { kept, computed } => IndexRefusal::BadTocSum { kept, computed },
        refusal => refused_in(0, refusal),
    }
}

#[tactic(auto, unfolding(crate::specs::Opening::contents_at))]
/// The table of contents of an index whose length, magic number and version are right.
pub(crate) fn contents_of(index: &[u8]) -> Result<Toc, IndexRefusal>
    ensures { Answers (λ toc. toc) result (contents_at index.now) }
{
    if index.len() < LEAST_SIZE {
        return Err(IndexRefusal::BadSection(0, PartRefusal::Short(0)));
    }
    if !index.starts_with(&MAGIC) {
        return Err(IndexRefusal::BadMagic);
    }
    if index[4] != VERSION {
        return Err(IndexRefusal::BadVersion);
    }
    match read_toc(index) {
        Ok(toc) => Ok(toc),
        Err(refusal) => Err(refused_contents(refusal)),
    }
}

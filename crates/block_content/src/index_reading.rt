//! The series of a block's index.
ghost use Rattle.std.specs.Prelude.{◌≡◌, IfOk};
ghost use Rattle.base.specs.Grammar.{IsBytes};
ghost use Rattle.base.specs.Reading.{Gives, refused_as};
ghost use Rattle.block_content.specs.ContentReading.{index_at, refused_index, ListsFew};

use crate::CheckRefusal;
use base::List;
use index_v2::{IndexReader, IndexRefusal, LentSeries};
use std::alloc::Global;

/// All series of an index, which lends the texts of their labels.
#[tactic(auto, unfolding(crate::specs::ContentReading::index_at))]
fn lent_index(alloc: Global, index: &[u8]) -> Result<List<LentSeries<'_>>, IndexRefusal>
    ensures exact { Gives IndexRefusal.NoMemory (λ list. list) result (index_at index.now) }
    ensures few { IfOk result (ListsFew index.now) }
{
    let reader = IndexReader::open(alloc, index)?;
    reader.whole_lent(alloc)
}

/// An index' refusal, as the block's.
fn refused_index(refusal: IndexRefusal) -> CheckRefusal
    ensures { result ≡ refused_index refusal }
{
    match refusal {
        IndexRefusal::NoMemory => CheckRefusal::NoMemory,
        refusal => CheckRefusal::BadIndex(refusal),
    }
}

/// The series of an index, which lends the texts of their labels, with a refusal as the block's.
pub fn read_index(alloc: Global, index: &[u8]) -> Result<List<LentSeries<'_>>, CheckRefusal>
    ensures exact { Gives CheckRefusal.NoMemory
        (λ list. list) result (refused_as refused_index (index_at index.now)) }
    ensures few { IfOk result (ListsFew index.now) }
    ensures bytes { IsBytes index.now }
{
    match lent_index(alloc, index) {
        Ok(list) => Ok(list),
        Err(refusal) => Err(refused_index(refusal)),
    }
}

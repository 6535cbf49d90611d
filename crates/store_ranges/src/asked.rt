//! What is asked of a block.
ghost use Rattle.std.specs.Prelude.{◌≡◌};
ghost use Rattle.store_ranges.specs.Asking.{block_asked};

use block_meta::Meta;
use label_sets::TextList;
use matchers::Selector;
use std::alloc::Global;
use ulid_core::Ulid;

/// The block, and the samples that are asked for.
#[derive(Clone, Copy)]
pub struct Asked<'a> {
    pub alloc: Global,
    pub ulid: Ulid,
    pub meta: &'a Meta,
    pub selector: &'a Selector,
    pub replicas: &'a TextList,
    pub low: i64,
    pub high: i64,
}

/// The size of a block's index, if its meta tells it.
pub fn index_size(asked: &Asked<'_>) -> Option<u64>
    ensures { result ≡ (block_asked asked.now).index_size }
{
    match asked
        .meta
        .files
        .members()
        .iter()
        .find(|file| file.path.as_str() == "index")
    {
        Some(file) => Some(file.bytes),
        None => None,
    }
}

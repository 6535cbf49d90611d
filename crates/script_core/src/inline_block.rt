//! A block that a script declares with its series. Their lines come in any order, and the block has them in the order
//! of their labels, as its index will.

use crate::series_map::series_list;
use crate::{Block, Body};
use base::NoMemory;
use label_sets::{LabelSet, SampleList, Series};
use std::alloc::Global;
use std::collections::BTreeMap;
use ulid_core::Ulid;

/// What a block line says before its labels.
#[derive(Clone, Copy)]
pub(crate) struct BlockHead {
    pub ulid: Ulid,
    pub min_time: i64,
    pub max_time: i64,
}

/// A declared block whose series lines may still come.
#[derive(Drop)]
pub(crate) struct InlineBlock {
    /// The number of the line that declares it.
    pub line: u32,
    pub ulid: Ulid,
    pub labels: LabelSet,
    pub min_time: i64,
    pub max_time: i64,
    pub series: BTreeMap<LabelSet, SampleList>,
}

impl InlineBlock {
    ghost use Rattle.std.specs.Prelude.{◌≡◌, [], IfOk, OnOk};
    ghost use Rattle.script_core.specs.State.{last_of, block_of, has_series, with_series};

    pub(crate) fn new(alloc: Global, line: u32, head: BlockHead, labels: LabelSet) -> InlineBlock
        ensures { last_of result ≡ record {
          line = line;
          ulid = head.ulid;
          labels = labels;
          min_time = head.min_time;
          max_time = head.max_time;
          series = [];
        } }
    {
        InlineBlock {
            line,
            ulid: head.ulid,
            labels,
            min_time: head.min_time,
            max_time: head.max_time,
            series: BTreeMap::new(alloc),
        }
    }

    #[tactic(auto, using(crate::proofs::SeriesLists::has_series_entries))]
    pub(crate) fn has_series(&self, labels: &LabelSet) -> bool
        ensures { result ≡ has_series (last_of self.now).series labels.now }
    {
        self.series.contains_key(labels)
    }

    #[tactic(auto, using(crate::proofs::SeriesLists::insert_series_entries))]
    pub(crate) fn insert_series(&mut self, series: Series) -> Result<(), NoMemory>
        ensures { OnOk result (last_of self.new ≡ with_series series (last_of self.old)) }
    {
        self.series.insert(series.labels, series.samples)?;
        Ok(())
    }

    pub(crate) fn into_block(self, alloc: Global) -> Result<Block, NoMemory>
        ensures { IfOk result (λ block. block ≡ block_of (last_of self)) }
    {
        Ok(Block {
            ulid: self.ulid,
            labels: self.labels,
            body: Body::Inline {
                min_time: self.min_time,
                max_time: self.max_time,
                series: series_list(alloc, self.series)?,
            },
        })
    }
}

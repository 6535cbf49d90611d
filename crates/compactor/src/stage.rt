use crate::{Marks, Reads, Reason};
use label_sets::LabelSet;
use meta_fetcher::Sync;
use shipper::Upload;
use std::collections::VecDeque;
use ulid_core::Ulid;

/// How far a compaction has come.
#[derive(Drop)]
pub(crate) enum Stage {
    /// It syncs.
    Syncing(Sync),
    /// It reads blocks of a group, which has these labels and these blocks.
    Reading(Reads, LabelSet, VecDeque<Ulid>),
    /// It uploads the block that these become.
    Uploading(Upload, VecDeque<Ulid>),
    /// It marks blocks for this reason, which tells what follows.
    Marking(Reason, Marks),
    /// It has come to its end.
    Over,
}

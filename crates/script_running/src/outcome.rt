//! How activities ended, as a report tells it. A number in it is mostly that of an entry, by which a reader finds in
//! the journal what the activity met.

use querier::{Answer, NamesList};

/// How a gateway's sync ended.
#[derive(Clone, Copy, Debug, PartialEq, Eq)]
pub enum SyncOutcome {
    /// The view keeps so many blocks.
    Blocks(u64),
    /// A call to the bucket failed.
    Fault(u64),
    /// A meta or a mark was not of its form, or a page not in order.
    Damaged(u64),
    /// The bucket has more names than a sync reads.
    TooMany,
}

/// How a query ended.
#[derive(Drop)]
pub enum QueryOutcome {
    /// What the gateways answered together, and what each asked gateway names, in their order.
    Answer(Answer, NamesList),
    /// The first gateway in order that gave no answer, and why.
    NoAnswer(u32, NoAnswer),
}

/// What a gateway gave to a query.
#[derive(Drop)]
pub enum QueryPart {
    /// None of the query's times lie in its partition.
    NotAsked,
    /// It has not synced yet.
    NoView,
    /// What it answered over a view, and the number of the first entry of the sync that gave the view.
    Answer(Answer, u64),
    /// Why it gave no answer over such a view.
    NoAnswer(NoAnswer, u64),
}

/// Why a gateway gave no answer.
#[derive(Clone, Copy, Debug, PartialEq, Eq)]
pub enum NoAnswer {
    /// It has not synced yet.
    NoView,
    /// An object of its view was not there.
    Missing(u64),
    /// An object was not of its form.
    Damaged(u64),
    /// A call to the bucket failed.
    Fault(u64),
}

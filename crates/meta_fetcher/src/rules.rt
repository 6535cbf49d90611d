use moment_core::{Partition, Span};

/// By what a sync goes.
#[derive(Clone, Copy, Debug, PartialEq, Eq)]
pub struct SyncRules {
    /// How old a block has to be before it is looked at.
    pub consistency: Span,
    /// How old a deletion mark has to be before the marked block is passed over.
    pub mark_delay: Span,
    /// How many names one page asks for.
    pub page_limit: u32,
    /// The times that the gateway answers for.
    pub partition: Partition,
}

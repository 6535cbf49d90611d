//! The outside as traits: a bucket of objects, a shelf of files, a site that opens both, a source and a sink of bytes.
//! Each has a form in memory. Beside them stand notes of what a bucket or a shelf was asked, for clauses alone: by them it
//! tells what it was asked.
#![tactic(auto)]

mod answer;
mod bucket;
mod calls;
mod fail;
mod file;
mod listing;
mod memory_bucket;
mod memory_shelf;
mod memory_sink;
mod memory_site;
mod memory_source;
mod notes;
mod objects;
mod shelf;
mod sink;
mod site;
mod site_refusal;
mod source;

pub use crate::notes::{CallNotes, NameNotes};
pub use answer::{
    DeleteAnswer, GetAnswer, PageAnswer, PutAnswer, ReadAnswer, ShelfAnswer, WriteAnswer,
};
pub use bucket::Bucket;
pub use fail::{Fail, FailList};
pub use file::{File, FileList};
pub use memory_bucket::MemoryBucket;
pub use memory_shelf::MemoryShelf;
pub use memory_sink::MemorySink;
pub use memory_site::MemorySite;
pub use memory_source::MemorySource;
pub use shelf::Shelf;
pub use sink::Sink;
pub use site::Site;
pub use site_refusal::SiteRefusal;
pub use source::Source;
pub use wire_bytes::FILE_LIMIT;

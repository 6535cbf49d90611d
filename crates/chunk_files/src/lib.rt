//! Segment files: chunks of XOR data one after another, each with its length and its sum.
#![tactic(auto)]

mod layout;
mod reading;
mod refusal;
mod segment_refusal;
mod segment_writer;

pub use layout::{FRAME_SIZE, GREATEST, HEADER_SIZE};
pub use reading::{read_chunk, read_summed, take_chunk};
pub use refusal::ChunkRefusal;
pub use segment_refusal::SegmentRefusal;
pub use segment_writer::SegmentWriter;

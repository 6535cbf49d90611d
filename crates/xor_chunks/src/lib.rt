//! Samples as XOR data: chunks of times and values as bits, read and written exactly.
#![tactic(auto)]

mod decoding;
mod encoding;
mod fitting;
mod last;
mod passing;
mod pending_bits;
mod refusal;
mod spanning;
mod step;
mod widths;
mod window;

pub use decoding::{append_stored, decode, decode_stored};
pub use encoding::encode;
pub use fitting::{USUAL_COUNT, fit_a_chunk};
pub use refusal::XorRefusal;
pub use spanning::{SampleSpan, span_stored};

//! Shipping: the upload of one block's objects, of which the meta is the last.
#![tactic(auto)]

mod running;
mod upload;

pub use running::run_upload;
pub use upload::{Upload, UploadEnd};

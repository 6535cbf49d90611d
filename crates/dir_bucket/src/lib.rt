//! A bucket and a shelf in folders of the system, and the site of the program, which opens them. Nothing is told of what a
//! folder holds: what a file has, and that the system does what it is asked, is trusted.
#![tactic(auto)]

mod dir_bucket;
mod dir_shelf;
mod files;
mod folder_lock;
mod host_bucket;
mod host_site;
mod listing;
mod names;
mod trouble;

pub use crate::dir_bucket::DirBucket;
pub use crate::dir_shelf::DirShelf;
pub use crate::host_bucket::HostBucket;
pub use crate::host_site::HostSite;
pub use crate::trouble::Trouble;

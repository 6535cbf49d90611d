//! A folder that one bucket uses at a time, in this process or in another one.

use std::fs::File;
use std::io;
use std::rt::Files;

/// A lock on a folder. The system lets it go with the process that took it, however that ends, and nothing of it is left in the
/// folder.
#[derive(Drop)]
pub(crate) struct FolderLock {
    folder: File,
}

impl FolderLock {
    /// Takes the lock on a folder, which fails while somebody else has it. It waits for nobody.
    pub(crate) fn take<R: Files<File = File>>(rt: &R, folder: &str) -> io::Result<FolderLock> {
        let folder = File::open(rt, folder)?;
        match folder.try_lock() {
            Ok(()) => Ok(FolderLock { folder }),
            Err(error) => Err(io::Error::from(error)),
        }
    }
}

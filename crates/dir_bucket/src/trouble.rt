//! Why the system refused something of a folder, in the few kinds that a user can do something about.

ghost use Rattle.std.specs.Prelude.{◌≡◌, ◌≢◌, IsSome, None, Some};
ghost use Rattle.std.specs.IoError.{error_kind};
ghost use Rattle.dir_bucket.specs.Troubles.{trouble_of};

use std::io;
use std::io::ErrorKind;

/// Why a folder can't be used, or a call over it has failed.
#[derive(Clone, Copy, Debug, PartialEq, Eq)]
pub enum Trouble {
    /// Another bucket uses the folder.
    InUse,
    /// Nothing stands under the name.
    Absent,
    /// The name, or a part of it, is not that of a folder.
    NoFolder,
    /// The rights for it are lacking, or the disk may only be read.
    Forbidden,
    /// There is no room left.
    Full,
    NoMemory,
    /// Anything else.
    Other,
}

impl Trouble {
    /// The trouble that an error of the system tells of.
    #[tactic(auto, unfolding(crate::specs::Troubles::trouble_of))]
    pub(crate) fn of(error: &io::Error) -> Trouble
        ensures { result ≡ trouble_of (error_kind error.now) }
    {
        match error.kind() {
            ErrorKind::WouldBlock => Trouble::InUse,
            ErrorKind::NotFound => Trouble::Absent,
            ErrorKind::NotADirectory | ErrorKind::InvalidFilename => Trouble::NoFolder,
            ErrorKind::PermissionDenied | ErrorKind::ReadOnlyFilesystem => Trouble::Forbidden,
            ErrorKind::StorageFull | ErrorKind::QuotaExceeded => Trouble::Full,
            ErrorKind::OutOfMemory => Trouble::NoMemory,
            _ => Trouble::Other,
        }
    }
}

ghost use Rattle.std.specs.Prelude.{◌≡◌, take, OnOk, OnErr};

use std::alloc::{AllocError, AllocFailed};
use std::fmt;

/// Memory was wanted and there was none.
#[derive(Clone, Copy, Debug, PartialEq, Eq)]
pub struct NoMemory;

impl fmt::Display for NoMemory {
    fn fmt<W: fmt::Write>(&self, f: &mut fmt::Formatter<W>) -> fmt::Result {
        write!(f, "no memory")
    }
}

impl From<AllocError> for NoMemory {
    fn from(_: AllocError) -> Self {
        NoMemory
    }
}

impl<T: Drop> From<AllocFailed<T>> for NoMemory {
    fn from(_: AllocFailed<T>) -> Self {
        NoMemory
    }
}

/// What putting something into a list gave. Where it ended for want of memory, what was put of it is cut off, so that the list
/// has its first members, of which there were so many before.
pub fn cut_on_err<T: Drop>(
    list: &mut Vec<T>,
    before: usize,
    put: Result<(), NoMemory>,
) -> Result<(), NoMemory>
    ensures same { result ≡ put }
    ensures ok { OnOk result (list.new.items ≡ list.old.items) }
    ensures err { OnErr result (list.new.items ≡ take before list.old.items) }
{
    if put.is_err() {
        list.truncate(before);
    }
    put
}
